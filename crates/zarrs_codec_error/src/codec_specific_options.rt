//! Options of single codecs.

ghost use Rattle.std.specs.Prelude.{◌≡◌, IfOk, option_map};
ghost use Rattle.std.specs.FinMap as finite;
ghost use Rattle.zarrs_metadata_values.specs.Configuration.{configuration_seen};
ghost use Rattle.zarrs_codec_error.specs.CodecSpecificOptions.{entries_seen, options_seen};

use std::alloc::{AllocError, Global};
use std::collections::BTreeMap;
use zarrs_metadata_values::Configuration;

/// Options of single codecs: at most one configuration under the name of each.
#[derive(Debug, Drop)]
pub struct CodecSpecificOptions {
    options: BTreeMap<String, Configuration>,
}

impl CodecSpecificOptions {
    /// No options.
    pub fn new(alloc: Global) -> Self
        ensures { options_seen result ≡ finite.empty }
    {
        CodecSpecificOptions {
            options: BTreeMap::new(alloc),
        }
    }

    /// These options with `option` for the codec of this name, in place of one that it had before.
    ///
    /// # Errors
    /// [`AllocError`] where there is not enough memory.
    pub fn with_option(
        self,
        alloc: Global,
        name: &str,
        option: Configuration,
    ) -> Result<Self, AllocError>
        ensures { IfOk result (λ options. options_seen options
            ≡ finite.insert (options_seen self) name.now (configuration_seen option)) }
    {
        let name = String::from_str(alloc, name)?;
        let mut options = self.options;
        options.insert(name, option)?;
        Ok(CodecSpecificOptions { options })
    }

    /// The option for the codec of this name, if there is one.
    pub fn get_option(&self, name: &str) -> Option<&Configuration>
        ensures { option_map (λ option. configuration_seen option.now) result
            ≡ finite.get (options_seen self.now) name.now }
    {
        self.options.get(name)
    }

    /// A copy.
    ///
    /// # Errors
    /// [`AllocError`] where there is not enough memory.
    pub fn try_clone(&self, alloc: Global) -> Result<Self, AllocError>
        ensures { IfOk result (λ copy. options_seen copy ≡ options_seen self.now) }
    {
        let options = copy_options(alloc, &self.options)?;
        Ok(CodecSpecificOptions { options })
    }
}

fn copy_options(
    alloc: Global,
    options: &BTreeMap<String, Configuration>,
) -> Result<BTreeMap<String, Configuration>, AllocError>
    ensures { IfOk result (λ copies. entries_seen copies.entries
        ≡ entries_seen options.now.entries) }
{
    let mut copies = BTreeMap::new(alloc);
    for (name, option) in options.iter() {
        let name = name.clone()?;
        drop(copies.insert(name, option.try_clone(alloc)?)?);
    }
    Ok(copies)
}
