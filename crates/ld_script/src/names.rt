use crate::fault::ScriptFault;
use indexmap::IndexSet;
use ld_base::NameSpec;
use std::alloc::Global;
use std::marker::Model;

/// The greatest number of names.
const MOST_NAMES: usize = 1000;

/// The names that the scripts of a test use for requests and counters, in the order in which they are
/// first used, each with what its samples are. They are numbered from 0. There are at most 1,000.
#[derive(Drop)]
pub struct Names {
    texts: IndexSet<String>,
    specs: Vec<NameSpec>,
}

impl Model for Names {
    ghost use Rattle.std.specs.Prelude.{map, string_bytes};
    ghost use Rattle.ld_script.specs.Names.{AreNames, NamesView};

    ghost Value = { NamesView };

    ghost view = { λ n. record { texts = map string_bytes n.texts.keys; specs = n.specs.items } };

    ghost invariant = { λ n. AreNames (record { texts = map string_bytes n.texts.keys; specs = n.specs.items }) };
}

impl Names {
    ghost use Rattle.std.specs.Prelude.{◌≡◌, ◌<◌, ◌↔◌, IsTrue, Some, IfErr, IfOk, MatchOption, OnErr, OnOk, length, slice_get};
    ghost use Rattle.ld_script.specs.Name.{Lacks};
    ghost use Rattle.ld_script.specs.Names.{AreNames, most_names, no_names, noted};
    ghost use Rattle.ld_script.specs.declared.fault.ScriptFault.{ScriptFault};

    // No names. Takes no memory.
    pub(crate) fn new(alloc: Global) -> Names
        ensures { result ≡ no_names }
    {
        Names {
            texts: IndexSet::new(alloc),
            specs: Vec::new(alloc),
        }
    }

    // The number of a name, which goes to the end with what its samples are where it is new.
    //
    // Fails where there is no memory for it; the names are then as before.
    pub(crate) fn note(
        &mut self,
        alloc: Global,
        name: &str,
        spec: NameSpec,
    ) -> Result<u16, ScriptFault>
        requires { Lacks self.old.texts name.now → length self.old.texts < most_names }
        ensures number { IfOk result (λ at. slice_get self.new.texts at ≡ Some name.now) }
        ensures names { OnOk result (self.new ≡ noted self.old name.now spec) }
        ensures err { OnErr result (self.new ≡ self.old) }
        ensures memory { IfErr result (λ f. f ≡ ScriptFault.Memory) }
    {
        if let Some(at) = self.find(name) {
            return Ok(at);
        }
        let text = String::from_str(alloc, name)?;
        self.specs.reserve(1)?;
        let Ok((at, _)) = self.texts.insert_full(text) else {
            return Err(ScriptFault::Memory);
        };
        self.specs.push(spec).unwrap();
        Ok(at as u16)
    }

    // Whether a name can be noted: it is there, or there is room for it.
    pub(crate) fn has_room(&self, name: &str) -> bool
        ensures { IsTrue result ↔ (Lacks self.now.texts name.now → length self.now.texts < most_names) }
    {
        self.specs.len() < MOST_NAMES || self.find(name).is_some()
    }

    // The number of a name, or None where it isn't there.
    fn find(&self, name: &str) -> Option<u16>
        ensures { MatchOption result
            (Lacks self.now.texts name.now)
            (λ at. slice_get self.now.texts at ≡ Some name.now) }
    {
        match self.texts.get_index_of(name) {
            Some(at) => Some(at as u16),
            None => None,
        }
    }

    /// What the samples of each name are, in order.
    pub fn specs(&self) -> &[NameSpec]
        ensures specs { result.now ≡ self.now.specs }
        ensures names { AreNames self.now }
    {
        self.specs.as_slice()
    }

    /// The text of a name.
    pub fn text(&self, at: u16) -> &str
        requires { at < length self.now.texts }
        ensures { slice_get self.now.texts at ≡ Some result.now }
    {
        self.texts.as_slice()[at as usize].as_str()
    }

    // The same names.
    //
    // Fails where there is no memory for them.
    pub(crate) fn copy(&self, alloc: Global) -> Result<Names, ScriptFault>
        ensures value { IfOk result (λ names. names ≡ self.now) }
        ensures memory { IfErr result (λ f. f ≡ ScriptFault.Memory) }
    {
        let texts = self.texts.clone()?;
        let specs = Vec::from_slice(alloc, self.specs.as_slice())?;
        Ok(Names { texts, specs })
    }
}
