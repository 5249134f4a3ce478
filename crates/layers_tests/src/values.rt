//! Names, replies and entries, compared by value.
use base::name::SnapName;
use base::refusal::Refusal;
use base::text::Bytes;
use laws::{lineage_laws, run_laws};
use model::entry::{Entry, KeptReply};
use model::names::Names;
use model::reply::{Reply, Value};
use model::request::{PoolProperty, Property, Request};
use model::snap_names::SnapNames;
use std::alloc::Global;
use std::process::Abort;

fn snap_names(rt: &impl Abort, alloc: Global, first: &[u8]) -> SnapNames {
    let name = SnapName::read(alloc, first).expect(rt, "memory for a name");
    SnapNames::from(vec![in alloc; name].expect(rt, "memory for names"))
}

fn are_same_snap_names(rt: &impl Abort, alloc: Global, one: &[u8], other: &[u8]) -> bool {
    snap_names(rt, alloc, one).same(&snap_names(rt, alloc, other))
}

// Whether a list is the same as one without a name.
fn is_none(alloc: Global, names: SnapNames) -> bool {
    SnapNames::from(Vec::new(alloc)).same(&names)
}

// Whether a list of this one name lends it, as its two parts.
fn is_lent(rt: &impl Abort, alloc: Global, file_system: &[u8], component: &[u8]) -> bool {
    match snap_names(rt, alloc, b"p/a@s").as_slice() {
        [only] => {
            let member = only.member();
            member.file_system.as_bytes() == file_system && member.component.as_bytes() == component
        }
        _ => false,
    }
}

#[test]
fn names_of_snapshots_compared(rt: HostRuntime) {
    let alloc = rt.alloc();
    assert!(rt;
        are_same_snap_names(&rt, alloc, b"p@s", b"p@s")
            && !are_same_snap_names(&rt, alloc, b"p@s", b"p@t")
            && !are_same_snap_names(&rt, alloc, b"p@s", b"p/a@s")
            && is_lent(&rt, alloc, b"p/a", b"s")
    );
    assert!(rt;
        !is_none(alloc, snap_names(&rt, alloc, b"p@s"))
            && is_none(alloc, SnapNames::from(Vec::new(alloc)))
    );
}

#[test]
fn properties_and_values_compared(rt: HostRuntime) {
    assert!(rt;
        Property::Referenced == Property::Referenced
            && Property::Written != Property::Referenced
            && Property::Guid != Property::CreateTxg
            && PoolProperty::Free != PoolProperty::Freeing
            && Property::Origin != Property::Clones
            && Value::Size(3).same(&Value::Size(3))
            && !Value::Size(3).same(&Value::Number(3))
    );
    run_laws();
    lineage_laws();
}

fn names(rt: &impl Abort, alloc: Global, first: &[u8]) -> Names {
    let name = Bytes::from(first.to_vec(alloc).expect(rt, "memory for a name"));
    Names::from(vec![in alloc; name].expect(rt, "memory for names"))
}

fn are_same_names(rt: &impl Abort, alloc: Global, one: &[u8], other: &[u8]) -> bool {
    names(rt, alloc, one).same(&names(rt, alloc, other))
}

fn is_listed(rt: &impl Abort, alloc: Global, name: &[u8]) -> bool {
    match names(rt, alloc, name).as_slice() {
        [only] => only.as_slice() == name,
        _ => false,
    }
}

#[test]
fn names_compared(rt: HostRuntime) {
    let alloc = rt.alloc();
    assert!(rt;
        are_same_names(&rt, alloc, b"p", b"p")
            && !are_same_names(&rt, alloc, b"p", b"p/a")
            && is_listed(&rt, alloc, b"p/a")
    );
}

fn kept(rt: &impl Abort, alloc: Global, reply: Reply) -> KeptReply {
    KeptReply::new(alloc, reply).expect(rt, "memory for a reply")
}

fn entry(rt: &impl Abort, alloc: Global, seat: u32, group: u64) -> Entry {
    Entry {
        seat,
        request: Request::Sync,
        reply: kept(rt, alloc, Reply::Group(group)),
    }
}

// Whether an entry is that of seat 1 and group 2.
fn is_the_entry(rt: &impl Abort, alloc: Global, seat: u32, group: u64) -> bool {
    let one = entry(rt, alloc, 1, 2);
    let other = entry(rt, alloc, seat, group);
    let same = one.same(&other);
    drop(one);
    drop(other);
    same
}

fn are_same_replies(one: Reply, other: Reply) -> bool {
    let same = one.same(&other);
    drop(one);
    drop(other);
    same
}

#[test]
fn entries_compared(rt: HostRuntime) {
    let alloc = rt.alloc();
    assert!(rt;
        is_the_entry(&rt, alloc, 1, 2)
            && !is_the_entry(&rt, alloc, 2, 2)
            && !is_the_entry(&rt, alloc, 1, 3)
            && are_same_replies(Reply::Data(Some([7; 512])), Reply::Data(Some([7; 512])))
            && !are_same_replies(Reply::Data(None), Reply::Done)
    );
}

// Whether a kept group is lent as that group, and is that reply and no other.
fn is_kept_group(rt: &impl Abort, alloc: Global, group: u64) -> bool {
    let reply = kept(rt, alloc, Reply::Group(group));
    let lent = match reply.other() {
        Some(Reply::Group(lent)) => *lent == group,
        _ => false,
    };
    lent && reply.is(&Reply::Group(group))
        && !reply.is(&Reply::Done)
        && !reply.same(&KeptReply::done())
}

// Whether Done is kept without another reply, as a word or put in as one.
fn is_kept_done(reply: KeptReply) -> bool {
    reply.other().is_none()
        && reply.is(&Reply::Done)
        && !reply.is(&Reply::Group(2))
        && reply.same(&KeptReply::done())
}

#[test]
fn kept_replies(rt: HostRuntime) {
    let alloc = rt.alloc();
    assert!(rt;
        is_kept_group(&rt, alloc, 2)
            && is_kept_done(KeptReply::done())
            && is_kept_done(kept(&rt, alloc, Reply::Done))
    );
}

// Whether a group is kept, or refused memory.
fn is_kept_or_refused(alloc: Global) -> bool {
    match KeptReply::new(alloc, Reply::Group(2)) {
        Ok(reply) => reply.is(&Reply::Group(2)),
        Err(why) => why == Refusal::NoMemory,
    }
}

// Run with each allocation refused in turn.
#[test]
fn refused_kept_replies_are_no_memory(rt: HostRuntime) {
    assert!(rt; is_kept_or_refused(rt.alloc()));
}
