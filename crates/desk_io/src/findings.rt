ghost use Rattle.std.specs.Prelude.{◌≡◌, None, OnOk, Some};
ghost use Rattle.desk_io.specs.Noted.{KeepsNotes, KeepsOtherNotes, noted};

use crate::Memory;
use durable_folder::Found;
use std::alloc::Global;
use std::collections::BTreeMap;

/// What was found of the files that a desk loaded, by their names.
#[derive(Drop)]
pub struct Findings {
    alloc: Global,
    found: BTreeMap<String, Option<Found>>,
}

impl Findings {
    /// Nothing is noted.
    pub fn new(alloc: Global) -> Findings {
        Findings {
            alloc,
            found: BTreeMap::new(alloc),
        }
    }

    /// What was found of the file of a name, if that is noted.
    pub fn of(&self, name: &str) -> &Option<Found>
        ensures { result.now ≡ noted self.now name.now }
    {
        match self.found.get(name) {
            Some(found) => found,
            None => &None,
        }
    }

    /// Notes what was found of the file of a name. Where there is no memory for that it changes nothing.
    pub fn note(&mut self, name: &str, found: Found) -> Result<(), Memory>
        ensures notes { OnOk result (noted self.new name.now ≡ Some found) }
        ensures keeps { KeepsNotes name.now result self.old self.new }
    {
        let key = String::from_str(self.alloc, name)?;
        self.found.insert(key, Some(found))?;
        Ok(())
    }

    /// Forgets what was found of the file of a name.
    pub fn forget(&mut self, name: &str)
        ensures forgets { noted self.new name.now ≡ None }
        ensures keeps { KeepsOtherNotes name.now self.old self.new }
    {
        self.found.remove(name);
    }
}
