ghost use Rattle.std.specs.Prelude.{◌<◌, ◌≤◌, All, length};
ghost use Rattle.ld_options.specs.Ranges.{most_scenarios};

use crate::document::read_root;
use crate::fault::OptionsFault;
use crate::scenarios::Scenarios;
use ld_json::Doc;
use ld_script::Scripts;
use std::alloc::Global;

/// What a test asks for.
#[derive(Drop)]
pub struct Options {
    /// The scenarios, in byte order of their names.
    pub scenarios: Scenarios,
    /// The scripts that they run.
    pub scripts: Scripts,
    /// There is a scenario.
    pub ghost some: { 1 ≤ length scenarios },
    /// There are no more than 20.
    pub ghost few: { length scenarios ≤ most_scenarios },
    /// The script of each scenario is there.
    pub ghost known: { All (λ s. s.script < length scripts.names) scenarios },
}

impl Options {
    ghost use Rattle.std.specs.Prelude.{◌≡◌, ◌≢◌, IfErr, IfOk, OnOk};
    ghost use Rattle.ld_json.specs.Rules.{Accepts};
    ghost use Rattle.ld_options.specs.Document.{AreOptions, IsRefusal};
    ghost use Rattle.ld_options.specs.declared.fault.OptionsFault.TheVariants.{Memory};

    /// Reads the options that a test's JSON text says.
    ///
    /// Refused is what is wrong first, at its path: the text; the root, its options and its scripts;
    /// what stands in the options; then each script, and then each scenario, in byte order of their
    /// names. Of an object, it is first that the value is none, then an unknown member, and then
    /// each member in the order in which the fields are listed: that it is missing, that it is of
    /// another kind, or that it is out of range. Of a scenario, the name and then the executor are
    /// looked at before all else. The only other error is want of memory.
    pub fn read(alloc: Global, bytes: &[u8]) -> Result<Options, OptionsFault>
        ensures value { IfOk result (AreOptions bytes.now) }
        ensures accepted { OnOk result (Accepts (IsRefusal bytes.now)) }
        ensures refused { IfErr result (λ f. f ≢ Memory → IsRefusal bytes.now f) }
    {
        let doc = Doc::read(alloc, bytes)?;
        read_root(alloc, &doc.root())
    }

    /// Equal options.
    ///
    /// Fails where there is no memory for them.
    pub fn copy(&self, alloc: Global) -> Result<Options, OptionsFault>
        ensures value { IfOk result (λ options. options ≡ self.now) }
        ensures memory { IfErr result (λ f. f ≡ Memory) }
    {
        let scenarios = self.scenarios.copy(alloc)?;
        let scripts = self.scripts.copy(alloc)?;
        Ok(Options { scenarios, scripts })
    }
}
