//! The laws of the definitions of values, each called once.

#[test]
fn knows_the_laws_of_numbers(_rt: HostRuntime) {
    num_fixed::laws::one_nearest();
    num_fixed::laws::one_division();
    num_fixed::laws::one_rounding();
    num_fixed::laws::computed();
    num_fixed::laws::told();
    num_fixed::laws::totals();
    num_fixed::laws::numerals();
    num_fixed::laws::one_number();
    num_fixed::laws::fronts();
}

#[test]
fn knows_the_laws_of_dates(_rt: HostRuntime) {
    date_atoms::laws::days_are_reached();
    date_atoms::laws::texts_say_one();
    date_atoms::laws::texts_are_decided();
    date_atoms::laws::texts_compute();
    date_atoms::laws::printed_texts_are_read();
}

#[test]
fn knows_the_laws_of_operators(_rt: HostRuntime) {
    atom_ops::laws::texts_of_numbers();
    fn_numbers::laws::extremes_are_first();
    seq_types::laws::types_are_found();
}
