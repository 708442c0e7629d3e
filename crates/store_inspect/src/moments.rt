//! The moments of items.

ghost use Rattle.std.specs.Prelude.{◌≡◌, ◌++◌, ◌∷◌, [], List, OnOk, nat_lt};
ghost use Rattle.tuple_bytes.specs.declared.item.Item.{Item as AnItem};
ghost use Rattle.history_model.specs.History.{moment_in};
ghost use Rattle.file_findings.specs.declared.finding.Finding.TheVariants.{MomentFalls};
ghost use Rattle.file_findings.specs.Along.{listed};
ghost use Rattle.store_inspect.specs.Items.{next_place, after_moment};
ghost use Rattle.store_inspect.specs.Known.{KnowsMoments};

use file_findings::{Finding, Made, note};
use std::alloc::Global;
use tuple_bytes::Item;

/// The moment of the last item that has one, and where moments fall.
#[derive(Drop)]
pub(crate) struct Moments {
    pub last: u64,
    /// The greatest one.
    pub greatest: u64,
    pub falls: Vec<Finding>,
}

/// The moment with an item more.
fn moment_after(last: u64, item: &Item) -> u64
    ensures value { result ≡ after_moment last item.now }
{
    match item {
        Item::Txn(txn) => txn.moment,
        Item::Frontier { moment } => *moment,
        Item::Policy { .. } => last,
    }
}

/// The moment of an item; a policy has none.
fn moment_in(item: &Item) -> u64
    ensures value { result ≡ moment_in item.now }
{
    moment_after(0, item)
}

impl Moments {
    pub fn new(alloc: Global) -> Moments
        ensures value { KnowsMoments result [] }
    {
        Moments {
            last: 0,
            greatest: 0,
            falls: Vec::new(alloc),
        }
    }

    pub fn take(&mut self, place: u64, item: &Item) -> Made<()>
        ensures value { OnOk result ((before : List AnItem) → place ≡ next_place before
            → KnowsMoments self.old before → KnowsMoments self.new (before ++ item.now ∷ [])) }
    {
        let moment = moment_after(self.last, item);
        let fall = Finding::MomentFalls(place, self.last, moment);
        note(&mut self.falls, moment < self.last, fall)?;
        self.last = moment;
        self.greatest = self.greatest.max(moment_in(item));
        Ok(())
    }
}
