//! The numbers of transactions.

ghost use Rattle.std.specs.Prelude.{◌≡◌, ◌+◌, ◌==◌, ◌++◌, ◌∷◌, [], List, OnOk, not};
ghost use Rattle.tuple_bytes.specs.declared.item.Item.{Item as AnItem};
ghost use Rattle.file_findings.specs.declared.finding.Finding.TheVariants.{NumberGap};
ghost use Rattle.file_findings.specs.Along.{listed};
ghost use Rattle.store_inspect.specs.Items.{next_place};
ghost use Rattle.store_inspect.specs.Known.{KnowsNumbers};

use file_findings::{Finding, Made, note};
use std::alloc::Global;
use tuple_bytes::Item;

/// The last number so far, and the gaps.
#[derive(Drop)]
pub(crate) struct Numbers {
    pub last: u32,
    pub gaps: Vec<Finding>,
}

impl Numbers {
    pub fn new(alloc: Global) -> Numbers
        ensures value { KnowsNumbers result [] }
    {
        Numbers {
            last: 0,
            gaps: Vec::new(alloc),
        }
    }

    pub fn take(&mut self, place: u64, item: &Item) -> Made<()>
        ensures value { OnOk result ((before : List AnItem) → place ≡ next_place before
            → KnowsNumbers self.old before → KnowsNumbers self.new (before ++ item.now ∷ [])) }
    {
        match item {
            Item::Txn(txn) => self.take_number(place, txn.number),
            Item::Frontier { .. } | Item::Policy { .. } => Ok(()),
        }
    }

    fn take_number(&mut self, place: u64, number: u32) -> Made<()>
        ensures last { OnOk result (self.new.last ≡ number) }
        ensures gaps { OnOk result (self.new.gaps.items ≡ self.old.gaps.items
            ++ listed (not (number == self.old.last + 1)) (NumberGap place self.old.last number)) }
    {
        let next = u64::from(self.last) + 1;
        let gap = Finding::NumberGap(place, self.last, number);
        note(&mut self.gaps, u64::from(number) != next, gap)?;
        self.last = number;
        Ok(())
    }
}
