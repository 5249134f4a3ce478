//! The open views of a pool: opened and closed by hand, and as many as there may be.
use base::number::{Group, Guid};
use model::snapshot_id::SnapshotId;
use snap::{VIEW_LIMIT, Views};
use std::alloc::Global;

const OLD: SnapshotId = SnapshotId {
    group: Group(7),
    guid: Guid(1),
};

/// Another snapshot of the same guid.
const RECEIVED: SnapshotId = SnapshotId {
    group: Group(9),
    guid: Guid(1),
};

/// Another snapshot of the same group.
const BESIDE: SnapshotId = SnapshotId {
    group: Group(7),
    guid: Guid(2),
};

fn is_opened(views: &mut Views, id: SnapshotId) -> bool {
    if views.is_full() {
        return false;
    }
    let number = views.next();
    views.open(id);
    views.next() == number.saturating_add(1) && views.find(number) == Some(id)
}

fn are_opened(views: &mut Views, ids: &[SnapshotId]) -> bool {
    for id in ids {
        if !is_opened(views, *id) {
            return false;
        }
    }
    true
}

/// Whether the view of each number, from 0 on, shows this.
fn are_shown(views: &Views, shown: &[Option<SnapshotId>]) -> bool {
    let mut number = 0;
    for id in shown {
        if views.find(number) != *id {
            return false;
        }
        number = number.saturating_add(1);
    }
    true
}

fn is_new(views: &Views) -> bool {
    views.len() == 0
        && views.next() == 1
        && !views.is_full()
        && !views.is_viewed(OLD)
        && are_shown(views, &[None, None])
}

/// Three views, two of them of one snapshot.
fn has_three(views: &Views) -> bool {
    views.len() == 3
        && are_shown(views, &[None, Some(OLD), Some(RECEIVED), Some(OLD), None])
        && views.is_viewed(OLD)
        && views.is_viewed(RECEIVED)
        && !views.is_viewed(BESIDE)
        && views.is_viewed_beside(1, OLD)
        && views.is_viewed_beside(1, RECEIVED)
        && !views.is_viewed_beside(2, RECEIVED)
        && views.is_viewed_beside(4, RECEIVED)
}

/// Views 1 and 3 of one snapshot.
fn has_two(views: &Views) -> bool {
    views.len() == 2
        && views.next() == 4
        && are_shown(views, &[None, Some(OLD), None, Some(OLD), None])
        && views.is_viewed(OLD)
        && !views.is_viewed(RECEIVED)
        && views.is_viewed_beside(3, OLD)
}

/// Closes view 2, then views that aren't open, then view 1, and opens one more.
fn are_closed(views: &mut Views) -> bool {
    views.close(2);
    let two = has_two(views);
    views.close(2);
    views.close(0);
    views.close(9);
    let same = has_two(views);
    views.close(1);
    two && same
        && !views.is_viewed_beside(3, OLD)
        && is_opened(views, BESIDE)
        && are_shown(views, &[None, None, None, Some(OLD), Some(BESIDE), None])
}

fn are_right(alloc: Global) -> bool {
    let Ok(mut views) = Views::new(alloc) else {
        return false;
    };
    is_new(&views)
        && are_opened(&mut views, &[OLD, RECEIVED, OLD])
        && has_three(&views)
        && are_closed(&mut views)
}

#[test]
fn views_are_opened_and_closed(rt: HostRuntime) {
    assert!(rt; are_right(rt.alloc()));
}

fn is_filled(views: &mut Views) -> bool {
    for k in 0..VIEW_LIMIT {
        let group = Group(k as u64);
        let guid = Guid(1);
        if views.len() != k || !is_opened(views, SnapshotId { group, guid }) {
            return false;
        }
    }
    views.len() == 1024 && views.is_full()
}

/// Whether views 1 to 1024 show the groups 0 to 1023, but for that number.
fn are_all_but(views: &Views, gone: u64) -> bool {
    for number in 1..1025 {
        let shown = match views.find(number) {
            Some(id) => number != gone && id.group == Group(number - 1),
            None => number == gone,
        };
        if !shown {
            return false;
        }
    }
    true
}

/// As many as there may be; once the middle one is closed there is room for one.
fn is_full_at_the_limit(views: &mut Views) -> bool {
    let filled = is_filled(views) && are_all_but(views, 0);
    views.close(512);
    let closed = !views.is_full() && are_all_but(views, 512);
    filled && closed && is_opened(views, OLD) && views.is_full()
}

fn are_few(alloc: Global) -> bool {
    let Ok(mut views) = Views::new(alloc) else {
        return false;
    };
    is_full_at_the_limit(&mut views)
}

#[test]
fn as_many_views_are_open_as_there_may_be(rt: HostRuntime) {
    assert!(rt; are_few(rt.alloc()));
}
