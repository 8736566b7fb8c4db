//! Laws of the definitions. Each holds of all values: a call brings it to a proof, and does nothing
//! when it runs.

ghost use Rattle.order_runs.specs.Laws.{OrdersAreOne, ClashesAreEarliest};

use item_tree::laws::keys_agree;

/// The sorted list is the one permutation that is sorted and keeps ties in place.
pub fn orders_are_one()
    ensures { OrdersAreOne }
{
    keys_agree();
}

/// A clash in lists one behind the other is the earliest there.
pub fn clashes_are_earliest()
    ensures { ClashesAreEarliest }
{}
