//! The names of the ports that were read.
ghost use Rattle.std.specs.Prelude.{◌≡◌, ◌++◌, List, [], ◌∷◌, IfOk, OnOk};
ghost use Rattle.es_base.specs.Config.{ports_in};
ghost use Rattle.es_base.specs.Port.{Port};
ghost use Rattle.vl_config.specs.Names.{is_among_names, AreNamesOf};

use arrayvec::ArrayString;
use es_base::{LONGEST_NAME, LinkSettings, Memory, PortName, PortSettings};
use std::alloc::Global;
use std::collections::BTreeSet;

/// The names of ports. Each is found without a search through all of them.
#[derive(Drop)]
pub(crate) struct Names {
    names: BTreeSet<ArrayString<LONGEST_NAME>>,
}

impl Names {
    /// No names.
    pub(crate) fn new(alloc: Global) -> Names
        ensures { AreNamesOf result [] }
    {
        Names {
            names: BTreeSet::new(alloc),
        }
    }

    /// Whether this name is among them.
    pub(crate) fn has(&self, name: &PortName) -> bool
        ensures { result ≡ is_among_names self.now name.now }
    {
        self.names.contains(&key_of(name))
    }

    /// Adds the name of one more port.
    pub(crate) fn add(&mut self, port: &PortSettings) -> Result<(), Memory>
        ensures { OnOk result ((ports : List Port) → AreNamesOf self.old ports → AreNamesOf self.new (ports ++ port.now ∷ [])) }
    {
        self.names.insert(key_of(port.name()))?;
        Ok(())
    }

    fn add_all(&mut self, ports: &[PortSettings]) -> Result<(), Memory>
        ensures { OnOk result ((earlier : List Port) → AreNamesOf self.old earlier → AreNamesOf self.new (earlier ++ ports.now)) }
    {
        for port in ports {
            self.add(port)?;
        }
        Ok(())
    }
}

/// The name as the set keeps it.
fn key_of(name: &PortName) -> ArrayString<LONGEST_NAME>
    ensures { result.bytes ≡ name.now }
{
    ArrayString::from(name.as_str()).unwrap()
}

/// The names of the ports of these links.
pub(crate) fn names_of(alloc: Global, links: &[LinkSettings]) -> Result<Names, Memory>
    ensures { IfOk result (λ names. AreNamesOf names (ports_in links.now)) }
{
    let mut names = Names::new(alloc);
    for link in links {
        names.add_all(link.ports())?;
    }
    Ok(names)
}
