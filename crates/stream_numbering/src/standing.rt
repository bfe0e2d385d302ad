//! What stands at the sites of bodies, and the streams that follow from it.
ghost use Rattle.std.specs.Prelude.{◌≡◌, ◌++◌, [], length, map, replicate, IfOk, OnOk};
ghost use Rattle.std.specs.Option.{option_map};
ghost use Rattle.spl_tree.specs.declared.graph.Site.{Site};
ghost use Rattle.language_model.specs.Numbering.{numbers_from, output_place};
ghost use Rattle.stream_numbering.specs.steps.SiteTable.{Parts, parts_of, number_at, first_at, body_at, composite_of, output_of, stream_there, row_of, row_at, table_of};

use crate::numbering::sum_of;
use crate::operators::stream_at;
use crate::sites::Sites;
use composite_tables::{Body, Composites, Scope};
use language_model::{Operation, Source};
use spl_tree::{Composite, Site};
use spl_value::{Items, NoMemory};
use std::alloc::Global;

/// The first streams of operators, each at the site of its operator.
pub(crate) fn first_streams(alloc: Global, operations: &[Operation]) -> Result<Sites, NoMemory>
    ensures { IfOk result (λ sites. (q : Site) → number_at sites q ≡ first_at 0 operations.now q) }
{
    let mut sites = Sites::new(alloc);
    let mut first = 0;
    for operation in operations {
        sites.add(operation.site, first)?;
        first = sum_of(first, operation.outputs)?;
    }
    Ok(sites)
}

/// The numbers of bodies, each at its site.
pub(crate) fn body_numbers(alloc: Global, bodies: &[Body]) -> Result<Sites, NoMemory>
    ensures { IfOk result (λ sites. (q : Site) → number_at sites q ≡ body_at 0 bodies.now q) }
{
    let mut sites = Sites::new(alloc);
    let mut number = 0;
    for body in bodies {
        if let Some(site) = body.site {
            sites.add(site, number)?;
        }
        number = sum_of(number, 1)?;
    }
    Ok(sites)
}

/// The place, among the streams of a composite's graph, of one of the outputs of its head.
fn output_place(scope: &Scope<'_>, output: u32) -> Option<u32>
    ensures { result ≡ output_place scope.now.composite.now output }
{
    let head = scope.composite.outputs.get(output as usize)?;
    scope.stream(head.name.what.as_slice())
}

/// What is known of an expansion while its streams are numbered.
#[derive(Drop)]
pub(crate) struct Standing<'a> {
    composites: &'a Composites<'a>,
    bodies: &'a [Body],
    operators: Sites,
    inner: Sites,
}

impl<'a> Standing<'a> {
    ghost use Rattle.stream_numbering.specs.steps.Describes.{Describes};

    pub(crate) fn new(
        alloc: Global,
        composites: &'a Composites<'a>,
        bodies: &'a [Body],
        operations: &[Operation],
    ) -> Result<Standing<'a>, NoMemory>
        ensures { IfOk result (λ standing. Describes standing (parts_of composites.now.unit.now bodies.now operations.now)) }
    {
        Ok(Standing {
            composites,
            bodies,
            operators: first_streams(alloc, operations)?,
            inner: body_numbers(alloc, bodies)?,
        })
    }

    /// The composite of the body of that number.
    fn scope(&self, number: u32) -> Option<&Scope<'a>>
        ensures { (parts : Parts) → Describes self.now parts → option_map (λ s. s.now.composite.now) result ≡ composite_of parts number }
    {
        let body = self.bodies.get(number as usize)?;
        self.composites.scope_at(body.composite)
    }

    /// The stream of an output of the body of that number.
    fn output_of(&self, table: &[Items<Option<u32>>], output: u32, number: u32) -> Option<u32>
        ensures { (parts : Parts) → Describes self.now parts → result ≡ output_of parts table.now output number }
    {
        let scope = self.scope(number)?;
        let place = output_place(scope, output)?;
        stream_at(
            table,
            Source {
                expansion: number,
                place,
            },
        )
    }

    /// The stream of an output of the invocation at a site.
    fn stream_there(
        &self,
        table: &[Items<Option<u32>>],
        site: Site,
        output: u32,
    ) -> Result<Option<u32>, NoMemory>
        ensures { IfOk result (λ s. (parts : Parts) → Describes self.now parts → s ≡ stream_there parts table.now site output) }
    {
        if let Some(first) = self.operators.at(site) {
            return Ok(Some(sum_of(first, output)?));
        }
        match self.inner.at(site) {
            Some(number) => Ok(self.output_of(table, output, number)),
            None => Ok(None),
        }
    }

    /// Adds the streams of the outputs of the invocation at a site.
    fn add_outputs(
        &self,
        row: &mut Items<Option<u32>>,
        table: &[Items<Option<u32>>],
        site: Site,
        count: usize,
    ) -> Result<(), NoMemory>
        ensures { OnOk result ((parts : Parts) → Describes self.now parts → row.new ≡ row.old ++ map (stream_there parts table.now site) (numbers_from 0 count)) }
    {
        let Ok(count) = u32::try_from(count) else {
            return Err(NoMemory);
        };
        for output in 0..count {
            row.push(self.stream_there(table, site, output)?)?;
        }
        Ok(())
    }

    /// The streams of the names of a body's graph, where those of the bodies within it are known.
    fn row_of(
        &self,
        alloc: Global,
        table: &[Items<Option<u32>>],
        number: u32,
        composite: &Composite,
    ) -> Result<Items<Option<u32>>, NoMemory>
        ensures { IfOk result (λ row. (parts : Parts) → Describes self.now parts → row ≡ row_of parts table.now number composite.now) }
    {
        let mut row = Items::new(alloc);
        self.fill_row(&mut row, table, number, composite)?;
        Ok(row)
    }

    /// Adds these streams to a row without any.
    fn fill_row(
        &self,
        row: &mut Items<Option<u32>>,
        table: &[Items<Option<u32>>],
        number: u32,
        composite: &Composite,
    ) -> Result<(), NoMemory>
        requires { row.old ≡ [] }
        ensures { OnOk result ((parts : Parts) → Describes self.now parts → row.new ≡ row_of parts table.now number composite.now) }
    {
        let mut next = 0;
        for invocation in composite.graph.as_slice() {
            let site = Site {
                expansion: number,
                invocation: next,
            };
            self.add_outputs(row, table, site, invocation.outputs.len())?;
            next = sum_of(next, 1)?;
        }
        Ok(())
    }

    /// The streams of the names of the body of that number, or none where there is no such body.
    fn row_at(
        &self,
        alloc: Global,
        table: &[Items<Option<u32>>],
        number: u32,
    ) -> Result<Items<Option<u32>>, NoMemory>
        ensures { IfOk result (λ row. (parts : Parts) → Describes self.now parts → row ≡ row_at parts table.now number) }
    {
        match self.scope(number) {
            Some(scope) => self.row_of(alloc, table, number, scope.composite),
            None => Ok(Items::new(alloc)),
        }
    }

    /// The streams of the names of all bodies.
    pub(crate) fn table(&self, alloc: Global) -> Result<Items<Items<Option<u32>>>, NoMemory>
        ensures { IfOk result (λ table. (parts : Parts) → Describes self.now parts → table ≡ table_of parts) }
    {
        let Ok(count) = u32::try_from(self.bodies.len()) else {
            return Err(NoMemory);
        };
        let mut table = empty_rows(alloc, count)?;
        self.fill(alloc, count, &mut table)?;
        Ok(table)
    }

    /// Fills a table of `count` rows, from the last body to the first: a body is invoked in one of a lower
    /// number.
    fn fill(
        &self,
        alloc: Global,
        count: u32,
        table: &mut Items<Items<Option<u32>>>,
    ) -> Result<(), NoMemory>
        requires bodies { count ≡ length self.now.bodies.now }
        requires rows { table.old ≡ replicate count [] }
        ensures { OnOk result ((parts : Parts) → Describes self.now parts → table.new ≡ table_of parts) }
    {
        for number in (0..count).rev() {
            let row = self.row_at(alloc, table.as_slice(), number)?;
            table.set(number as usize, row);
        }
        Ok(())
    }
}

/// `count` rows, each of which is to be replaced.
fn empty_rows(alloc: Global, count: u32) -> Result<Items<Items<Option<u32>>>, NoMemory>
    ensures { IfOk result (λ table. table ≡ replicate count []) }
{
    let mut rows = Items::with_capacity(alloc, count as usize)?;
    'rows: for _ in 0..count {
        rows.push(Items::new(alloc))?;
    }
    Ok(rows)
}
