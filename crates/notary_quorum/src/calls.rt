//! A call that is made on each member.

ghost use Rattle.std.specs.Prelude.{◌≡◌, ◌≤◌, true, length, map};
ghost use Rattle.notary_quorum.specs.declared.said.Said.TheVariants.{NoMemory};
ghost use Rattle.notary_quorum.specs.Calls.{is_change, WantsFairly, Meets, EachMeets};
ghost use Rattle.notary_quorum.specs.Requests.{call_of, IsFair};
ghost use Rattle.notary_quorum.specs.Votes.{is_wanting};

use crate::replies::Replies;
use crate::request::Request;
use crate::said::{Said, of_answer, of_count, of_done, of_mark, of_moment};
use notary_link::Notary;

/// It may change what stands there.
pub(crate) fn may_change(request: &Request<'_>) -> bool
    ensures value { result ≡ is_change (call_of request.now) }
{
    matches!(request, Request::File { .. } | Request::Mark { .. })
}

/// Makes a call, and gives what is said.
pub(crate) fn call<N: Notary>(notary: &mut N, request: &Request<'_>) -> Said
    requires { IsFair request.now }
    ensures meets { Meets (call_of request.now) result (N.state notary.old) (N.state notary.new) }
    ensures memory { WantsFairly N.asking_takes_memory (call_of request.now) (result ≡ NoMemory) }
{
    match request {
        Request::Count { id } => of_count(notary.count(*id)),
        Request::MomentOf { id, index } => of_moment(notary.moment_of(*id, *index)),
        Request::Ask { id, name, digest } => of_answer(notary.ask(*id, *name, *digest)),
        Request::Mark { id, mark } => of_done(notary.mark(*id, *mark)),
        Request::MarkAt { id, place } => of_mark(notary.mark_at(*id, *place)),
        Request::File {
            id,
            index,
            moment,
            seals,
        } => of_done(notary.file(*id, *index, *moment, *seals)),
    }
}

/// Makes a call on each member, in order.
pub(crate) fn call_each<N: Notary>(members: &mut Vec<N>, request: &Request<'_>) -> Replies
    requires few { length members.old.items ≤ 9 }
    requires fair { IsFair request.now }
    ensures each { EachMeets (call_of request.now) result
        (map N.state members.old.items) (map N.state members.new.items) }
    ensures memory { WantsFairly N.asking_takes_memory (call_of request.now) (is_wanting result ≡ true) }
{
    let mut replies = Replies::new();
    for member in members.iter_mut() {
        replies.push(call(member, request));
    }
    replies
}
