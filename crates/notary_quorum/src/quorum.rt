//! A quorum: a notary over several.

ghost use Rattle.std.specs.Prelude.{◌≡◌, ◌≤◌, length};
ghost use Rattle.notary_quorum.specs.Panels.{members_of};
ghost use Rattle.notary_quorum.specs.Quorums.{HaveEqualLimits};

use crate::calls::{call_each, may_change};
use crate::log::Log;
use crate::panel::Panel;
use crate::request::Request;
use crate::said::{Said, Split, to_answer, to_count, to_done, to_mark, to_moment};
use crate::tally::Tally;
use notary_link::{Answer, Mark, Name, Notary, NotaryFail, Seal};

/// A notary that makes each call on every member, and answers what more than half of them said.
#[derive(Drop)]
pub struct Quorum<N: Notary> {
    panel: Panel<N>,
    ghost some: { 1 ≤ length panel.members.items },
    ghost few: { length panel.members.items ≤ 9 },
    ghost alike: { HaveEqualLimits (members_of N.state panel) },
    ghost places: { length panel.tally.in_step ≡ 9 },
}

impl<N: Notary> Quorum<N> {
    ghost use Rattle.std.specs.Prelude.{[], ◌<◌, ◌^◌, map};
    ghost use Rattle.notary_quorum.specs.declared.said.Said.TheVariants.{NoMemory};
    ghost use Rattle.notary_quorum.specs.Calls.{id_of, WantsFairly, Meets};
    ghost use Rattle.notary_quorum.specs.Panels.{quorum_of, CallsMembers};
    ghost use Rattle.notary_quorum.specs.Quorums.{no_tally, quorum_state};
    ghost use Rattle.notary_quorum.specs.Requests.{call_of, IsFair};

    /// A quorum of one to nine members, all with the same limits. It takes no memory, and asks nobody.
    pub fn new(members: Vec<N>) -> Self
        requires some { 1 ≤ length members.items }
        requires few { length members.items ≤ 9 }
        requires alike { HaveEqualLimits (map N.state members.items) }
        ensures fresh { ⟦<Quorum<N> as Notary>⟧.state result
            ≡ quorum_state [] (map N.state members.items) no_tally 0 }
    {
        Quorum {
            panel: Panel {
                members,
                tally: Tally::new(),
                asked: 0,
                past: Log::new(),
            },
        }
    }

    /// The first two answers that differed, in order of the members, in the last call that had such.
    pub fn last_split(&self) -> Option<Split>
        ensures value { result ≡ self.now.panel.tally.last_split }
    {
        self.panel.tally.last_split
    }

    /// The members, as the calls left them.
    pub fn into_members(self) -> Vec<N>
        ensures value { result ≡ self.panel.members }
    {
        self.panel.members
    }

    // Makes a call on every member.
    fn call(&mut self, request: &Request<'_>) -> Said
        requires fair { IsFair request.now }
        requires named { id_of (call_of request.now) < 2 ^ 64 }
        ensures meets { Meets (call_of request.now) result
            (quorum_of N.state self.old.panel) (quorum_of N.state self.new.panel) }
        ensures memory { WantsFairly N.asking_takes_memory (call_of request.now) (result ≡ NoMemory) }
        ensures asked { self.new.panel.asked ≡ self.old.panel.asked }
        ensures calls { CallsMembers N.state (call_of request.now) result
            self.old.panel self.new.panel }
    {
        let panel = &mut self.panel;
        panel.past = panel.past.and(&panel.members, &panel.tally.in_step);
        let replies = call_each(&mut panel.members, request);
        panel.tally.take(may_change(request), replies.as_slice())
    }
}

/// What is said of one call beside what the trait says of any: `calls`.
impl<N: Notary> Notary for Quorum<N> {
    ghost use Rattle.std.specs.Prelude.{◌+◌, true, IsErrOf};
    ghost use Rattle.outside_words.specs.Faults.{HasCause};
    ghost use Rattle.notary_link.specs.declared.fail.NotaryFail.TheVariants.{Failed, NoMemory};
    ghost use Rattle.notary_link.specs.Batches.{IsBatch};
    ghost use Rattle.notary_link.specs.Notary.{file, note, batch_of, GivesCount, GivesAnswer, GivesMoment, GivesMark, IsAsked, IsNotOutOfTurn, Unchanged, Answers, GoesOn, in_doubt, IsCounted};
    ghost use Rattle.notary_quorum.specs.Calls.{counts, changes, asks, moments, marks};
    ghost use Rattle.notary_quorum.specs.FewMarks.{limited_of, few_of};
    ghost use Rattle.notary_quorum.specs.Panels.{past_of, quorum_of, faults_in, CallsMembers};
    ghost use Rattle.notary_quorum.specs.Quorums.{one_more};
    ghost use Rattle.notary_quorum.specs.Sayings.{said_count, said_answer, said_moment, said_mark, said_done};

    ghost state = { λ q. quorum_of N.state q.panel };

    ghost asking_takes_memory = { N.asking_takes_memory };

    ghost limited = { λ q. limited_of N.state N.limited q.panel.members.items };

    ghost few_marks = { λ q. few_of N.state N.few_marks (past_of N.state q.panel) q.panel.members.items q.panel.tally.in_step };

    fn count(&mut self, id: u64) -> Result<u32, NotaryFail>
        ensures value { GivesCount id result (quorum_of N.state self.old.panel) }
        ensures only { IsAsked result }
        ensures same { Unchanged (quorum_of N.state self.old.panel) (quorum_of N.state self.new.panel) }
        ensures asked { self.new.panel.asked ≡ self.old.panel.asked }
        ensures frame { GoesOn (quorum_of N.state self.old.panel) (quorum_of N.state self.new.panel) }
        ensures cause { HasCause Failed
            (faults_in N.state self.old.panel) (faults_in N.state self.new.panel) result }
        ensures counted { IsCounted in_doubt (quorum_of N.state self.old.panel) (quorum_of N.state self.new.panel) result }
        ensures memory { IsErrOf result NoMemory → N.asking_takes_memory ≡ true }

        ensures calls { CallsMembers N.state (counts id) (said_count result)
            self.old.panel self.new.panel }
    {
        to_count(self.call(&Request::Count { id }))
    }

    fn file(&mut self, id: u64, index: u32, moment: u64, seals: &[Seal]) -> Result<(), NotaryFail>
        requires { IsBatch seals.now }
        ensures change { Answers (file id index (batch_of moment seals.now)) result
            (quorum_of N.state self.old.panel) (quorum_of N.state self.new.panel) }
        ensures frame { GoesOn (quorum_of N.state self.old.panel) (quorum_of N.state self.new.panel) }
        ensures cause { HasCause Failed
            (faults_in N.state self.old.panel) (faults_in N.state self.new.panel) result }
        ensures counted { IsCounted in_doubt (quorum_of N.state self.old.panel) (quorum_of N.state self.new.panel) result }

        ensures calls { CallsMembers N.state (changes (file id index (batch_of moment seals.now))) (said_done result)
            self.old.panel self.new.panel }
    {
        to_done(self.call(&Request::File {
            id,
            index,
            moment,
            seals,
        }))
    }

    fn ask(&mut self, id: u64, name: Name, digest: &[u8; 32]) -> Result<Answer, NotaryFail>
        ensures value { GivesAnswer id name digest.now result (quorum_of N.state self.old.panel) }
        ensures only { IsAsked result }
        ensures same { Unchanged (quorum_of N.state self.old.panel) (quorum_of N.state self.new.panel) }
        ensures asked { self.new.panel.asked ≤ self.old.panel.asked + 1 }
        ensures frame { GoesOn (quorum_of N.state self.old.panel) (quorum_of N.state self.new.panel) }
        ensures cause { HasCause Failed
            (faults_in N.state self.old.panel) (faults_in N.state self.new.panel) result }
        ensures counted { IsCounted in_doubt (quorum_of N.state self.old.panel) (quorum_of N.state self.new.panel) result }
        ensures memory { IsErrOf result NoMemory → N.asking_takes_memory ≡ true }

        ensures calls { CallsMembers N.state (asks id name digest.now) (said_answer result)
            self.old.panel self.new.panel }
        ensures questions { self.new.panel.asked ≡ one_more self.old.panel.asked }
    {
        self.panel.asked = self.panel.asked.saturating_add(1);
        to_answer(self.call(&Request::Ask { id, name, digest }))
    }

    fn moment_of(&mut self, id: u64, index: u32) -> Result<Option<u64>, NotaryFail>
        ensures value { GivesMoment id index result (quorum_of N.state self.old.panel) }
        ensures only { IsAsked result }
        ensures same { Unchanged (quorum_of N.state self.old.panel) (quorum_of N.state self.new.panel) }
        ensures asked { self.new.panel.asked ≡ self.old.panel.asked }
        ensures frame { GoesOn (quorum_of N.state self.old.panel) (quorum_of N.state self.new.panel) }
        ensures cause { HasCause Failed
            (faults_in N.state self.old.panel) (faults_in N.state self.new.panel) result }
        ensures counted { IsCounted in_doubt (quorum_of N.state self.old.panel) (quorum_of N.state self.new.panel) result }
        ensures memory { IsErrOf result NoMemory → N.asking_takes_memory ≡ true }

        ensures calls { CallsMembers N.state (moments id index) (said_moment result)
            self.old.panel self.new.panel }
    {
        to_moment(self.call(&Request::MomentOf { id, index }))
    }

    fn mark(&mut self, id: u64, mark: Mark) -> Result<(), NotaryFail>
        ensures change { Answers (note id mark) result
            (quorum_of N.state self.old.panel) (quorum_of N.state self.new.panel) }
        ensures only { IsNotOutOfTurn result }
        ensures frame { GoesOn (quorum_of N.state self.old.panel) (quorum_of N.state self.new.panel) }
        ensures cause { HasCause Failed
            (faults_in N.state self.old.panel) (faults_in N.state self.new.panel) result }
        ensures counted { IsCounted in_doubt (quorum_of N.state self.old.panel) (quorum_of N.state self.new.panel) result }

        ensures calls { CallsMembers N.state (changes (note id mark)) (said_done result)
            self.old.panel self.new.panel }
    {
        to_done(self.call(&Request::Mark { id, mark }))
    }

    fn mark_at(&mut self, id: u64, place: u32) -> Result<Option<Mark>, NotaryFail>
        ensures value { GivesMark id place result (quorum_of N.state self.old.panel) }
        ensures only { IsAsked result }
        ensures same { Unchanged (quorum_of N.state self.old.panel) (quorum_of N.state self.new.panel) }
        ensures asked { self.new.panel.asked ≡ self.old.panel.asked }
        ensures frame { GoesOn (quorum_of N.state self.old.panel) (quorum_of N.state self.new.panel) }
        ensures cause { HasCause Failed
            (faults_in N.state self.old.panel) (faults_in N.state self.new.panel) result }
        ensures counted { IsCounted in_doubt (quorum_of N.state self.old.panel) (quorum_of N.state self.new.panel) result }
        ensures memory { IsErrOf result NoMemory → N.asking_takes_memory ≡ true }

        ensures calls { CallsMembers N.state (marks id place) (said_mark result)
            self.old.panel self.new.panel }
    {
        to_mark(self.call(&Request::MarkAt { id, place }))
    }
}
