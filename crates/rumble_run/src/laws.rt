//! Laws of what a command line comes to. Each holds of all queries: a call brings it to a proof,
//! and does nothing when it runs.

ghost use Rattle.std.specs.Prelude.{◌≡◌, ◌<◌, ℕ, List, Option};
ghost use Rattle.item_tree.specs.Datum.{Datum};
ghost use Rattle.part_writer.specs.Parts.{parts_of, joined};
ghost use Rattle.rumble_run.specs.Answer.{output_of};
ghost use Rattle.outside.specs.World.{World};
ghost use Rattle.rumble_run.specs.Laws.{HasOneFront, HasOneAnswer, HasOneSearch};
ghost use Rattle.rumble_run.specs.declared.command.Command.{Command};

/// Every query has a front, a compiled tree or a refusal, and only one.
pub fn one_front()
    ensures { (query : List ℕ) → HasOneFront query }
{}

/// Every command line has an answer over every world, and only one.
pub fn one_answer()
    ensures { (words : List (List ℕ)) → (world : World) → HasOneAnswer words world }
{}

/// Every command looks for some files over every world, and for no others.
pub fn one_search()
    ensures { (command : Option Command) → (world : World) → HasOneSearch command world }
{}

/// The parts of what is printed, put together in order, are what is printed, however many they are.
pub fn parts_are_output()
    ensures { (count : ℕ) → (items : List Datum) → 0 < count
        → joined (parts_of count (output_of items)) ≡ output_of items }
{
    part_writer::laws::parts_are_whole();
}
