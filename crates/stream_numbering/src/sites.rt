//! Numbers by the sites of bodies.
use language_model::Operation;
use spl_tree::Site;
use spl_value::NoMemory;
use std::alloc::Global;
use std::collections::HashMap;

/// The first number that was given for each site.
#[derive(Drop)]
pub(crate) struct Sites {
    numbers: HashMap<(u32, u32), u32>,
}

impl Sites {
    ghost use Rattle.std.specs.Prelude.{◌≡◌, OnOk, if◌then◌else◌};
    ghost use Rattle.std.specs.Option.{option_or};
    ghost use Rattle.spl_tree.specs.declared.graph.Site.{Site};
    ghost use Rattle.language_model.specs.Numbering.{is_site};
    ghost use Rattle.stream_numbering.specs.steps.SiteTable.{number_at};

    pub(crate) fn new(alloc: Global) -> Sites
        ensures { (q : Site) → number_at result q ≡ None }
    {
        Sites {
            numbers: HashMap::new(alloc),
        }
    }

    pub(crate) fn at(&self, site: Site) -> Option<u32>
        ensures { result ≡ number_at self.now site }
    {
        self.numbers
            .get(&(site.expansion, site.invocation))
            .copied()
    }

    /// Gives a number for a site that has none.
    pub(crate) fn add(&mut self, site: Site, number: u32) -> Result<(), NoMemory>
        ensures { OnOk result ((q : Site) → number_at self.new q ≡ option_or (number_at self.old q) (if is_site site q then Some number else None)) }
    {
        let key = (site.expansion, site.invocation);
        if !self.numbers.contains_key(&key) {
            self.numbers.insert(key, number)?;
        }
        Ok(())
    }
}
