//! The drivers of a plan, each found by its place.

ghost use Rattle.std.specs.Prelude.{◌≡◌, ◌++◌, ◌∷◌, [], ℕ, map, option_map, IfOk, OnOk};
ghost use Rattle.std.specs.Option.{option_to_list};
ghost use Rattle.std.specs.List.{filter_map};
ghost use Rattle.mode_planner.specs.Beside.{is_driver, drives};
ghost use Rattle.mode_planner.specs.inside.Tables.{drivers_at, at_place};
ghost use Rattle.mode_planner.specs.inside.Views.{driver_of, leaf_of};

use crate::{Driver, Leaf};
use item_tree::NoMemory;
use std::alloc::Global;
use std::collections::BTreeMap;

// The drivers at each place that has one.
type Places<'q> = BTreeMap<u32, Vec<Driver<'q>>>;

// One more driver, after the others of its place.
fn note<'q>(alloc: Global, places: &mut Places<'q>, driver: Driver<'q>) -> Result<(), NoMemory>
    ensures { OnOk result ((place : ℕ) → drivers_at places.new place
        ≡ drivers_at places.old place ++ at_place place (driver_of driver.entry ∷ [])) }
{
    match places.get_mut(&driver.place) {
        Some(drivers) => drivers.push(driver)?,
        None => {
            let drivers = vec![in alloc; driver]?;
            places.insert(driver.place, drivers)?;
        }
    }
    Ok(())
}

// Whether a driver is this call.
fn is_driver(call: &Driver<'_>, driver: &Driver<'_>) -> bool
    ensures { result ≡ is_driver (driver_of call.now) (driver_of driver.now) }
{
    call.place == driver.place && call.names.as_slice() == driver.names.as_slice()
}

// Whether one of the drivers is this call.
fn is_among(drivers: &[Driver<'_>], call: &Driver<'_>) -> bool
    ensures { result ≡ drives (map driver_of drivers.now) (driver_of call.now) }
{
    for driver in drivers {
        if is_driver(call, driver) {
            return true;
        }
    }
    false
}

/// The drivers of a plan.
#[derive(Drop)]
pub(crate) struct DriverTable<'q> {
    /// The drivers, in order.
    pub all: Vec<Driver<'q>>,
    places: Places<'q>,
    ghost found: { (place : ℕ) → drivers_at places place ≡ at_place place (map driver_of all.items) },
}

impl<'q> DriverTable<'q> {
    // No drivers.
    fn new(alloc: Global) -> DriverTable<'q>
        ensures { result.all.items ≡ [] }
    {
        DriverTable {
            all: Vec::new(alloc),
            places: BTreeMap::new(alloc),
        }
    }

    // With this driver after the others.
    fn with(self, alloc: Global, driver: Driver<'q>) -> Result<DriverTable<'q>, NoMemory>
        ensures { IfOk result (λ t. map driver_of t.all.items
            ≡ map driver_of self.entry.all.items ++ driver_of driver.entry ∷ []) }
    {
        let DriverTable {
            mut all,
            mut places,
        } = self;
        all.push(driver)?;
        note(alloc, &mut places, driver)?;
        Ok(DriverTable { all, places })
    }

    // With the driver of a leaf, if it has one.
    fn with_leaf(self, alloc: Global, leaf: &Leaf<'q>) -> Result<DriverTable<'q>, NoMemory>
        ensures { IfOk result (λ t. map driver_of t.all.items ≡ map driver_of self.entry.all.items
            ++ option_to_list (option_map driver_of leaf.now.driver)) }
    {
        match leaf.driver {
            Some(driver) => self.with(alloc, driver),
            None => Ok(self),
        }
    }

    /// The drivers of leaves.
    ///
    /// The time grows with the number of leaves times the logarithm of it.
    pub fn of(alloc: Global, leaves: &[Leaf<'q>]) -> Result<DriverTable<'q>, NoMemory>
        ensures { IfOk result (λ t. map driver_of t.all.items
            ≡ filter_map (λ l. l.driver) (map leaf_of leaves.now)) }
    {
        let mut table = DriverTable::new(alloc);
        for leaf in leaves {
            table = table.with_leaf(alloc, leaf)?;
        }
        Ok(table)
    }

    /// Whether one of the drivers is this call.
    ///
    /// The time grows with the logarithm of the number of drivers, where no two have one place.
    pub fn drives(&self, call: &Driver<'_>) -> bool
        ensures { result ≡ drives (map driver_of self.now.all.items) (driver_of call.now) }
    {
        match self.places.get(&call.place) {
            Some(drivers) => is_among(drivers, call),
            None => false,
        }
    }
}
