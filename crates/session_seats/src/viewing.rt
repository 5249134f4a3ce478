//! Rows on views.
use crate::table::{Table, tell_called};
use base::name::Target;
use base::refusal::Refusal;
use base::text::Bytes;
use session::{ClosedView, OpenedView, Opening, Seat, View};
use std::alloc::{AllocError, Global};
use std::sync::Wait;
use std::thread::yield_now;
use telling::replies::tell_digits;
use telling::told::{tell, tell_number, tell_refusal};
use telling::words::{numbered, placed};

/// What a view shows of a block.
type Shown = Result<Option<[u8; 512]>, Refusal>;

/// Where a row looks, and how often.
#[derive(Clone, Copy)]
struct Look {
    times: u64,
    object: u32,
    block: u32,
}

/// `TIMES OBJECT BLOCK`.
fn look_of(words: &str) -> Look {
    let (times, words) = numbered(words);
    let (object, words) = numbered(words);
    let (block, _) = numbered(words);
    Look {
        times,
        object: (object & 0xffff_ffff) as u32,
        block: (block & 0xffff_ffff) as u32,
    }
}

/// Whether a view shows the same again and again.
fn shows_on<K: Opening>(view: &View<K>, look: Look, shown: &Shown) -> bool {
    for _ in 1..look.times {
        yield_now();
        if view.read(look.object, look.block) != *shown {
            return false;
        }
    }
    true
}

fn tell_shown(alloc: Global, shown: &Shown, told: &mut Vec<u8>) -> Result<(), AllocError> {
    match shown {
        Ok(Some(bytes)) => tell_digits(alloc, bytes.as_slice(), told),
        Ok(None) => tell(told, "hole"),
        Err(refusal) => tell_refusal(alloc, told, *refusal),
    }
}

/// What one of some views shows, by `VIEW TIMES OBJECT BLOCK`.
pub fn look_at<K: Opening>(
    alloc: Global,
    views: &[View<K>],
    rest: &str,
    told: &mut Vec<u8>,
) -> Result<(), AllocError> {
    let (place, rest) = placed(rest);
    let Some(view) = views.get(place) else {
        return tell(told, "none");
    };
    let look = look_of(rest);
    let shown = view.read(look.object, look.block);
    tell_shown(alloc, &shown, told)?;
    if shows_on(view, look, &shown) {
        Ok(())
    } else {
        tell(told, " and then another")
    }
}

/// Opens a view of a name, which becomes the last.
pub fn open_view<K: Opening, R: Wait>(
    table: &Table<K, R>,
    seat: &mut Seat<K>,
    views: &mut Vec<View<K>>,
    name: &str,
    told: &mut Vec<u8>,
) -> Result<(), AllocError> {
    views.reserve(1)?;
    let Ok(target) = Target::read(table.alloc, name.as_bytes()) else {
        return Err(AllocError);
    };
    let called = match table.session.open_view(table.alloc, table.rt, seat, target) {
        Ok(OpenedView::Opened(view, receipt)) => {
            views.push_reserved(view);
            Ok(receipt)
        }
        Ok(OpenedView::Refused(receipt)) => Ok(receipt),
        Err(refusal) => Err(refusal),
    };
    tell_called(table.alloc, called, told)
}

/// Closes the view of a number. The last one takes its place; one that is handed back becomes the last.
pub fn close_view<K: Opening, R: Wait>(
    table: &Table<K, R>,
    seat: &mut Seat<K>,
    views: &mut Vec<View<K>>,
    view: &str,
    told: &mut Vec<u8>,
) -> Result<(), AllocError> {
    let (place, _) = placed(view);
    if place >= views.len() {
        return tell(told, "none");
    }
    let view = views.swap_remove(place);
    let called = match table.session.close_view(table.alloc, table.rt, seat, view) {
        ClosedView::Closed(receipt) => Ok(receipt),
        ClosedView::Refused(receipt, view) => {
            views.push_reserved(view);
            Ok(receipt)
        }
        ClosedView::NotRun(refusal, view) => {
            views.push_reserved(view);
            Err(refusal)
        }
    };
    tell_called(table.alloc, called, told)
}

/// The stream of `VIEW` or `VIEW SOURCE`.
pub fn send<K: Opening>(
    alloc: Global,
    views: &[View<K>],
    rest: &str,
    told: &mut Vec<u8>,
) -> Result<(), AllocError> {
    let (place, source) = placed(rest);
    let Some(view) = views.get(place) else {
        return tell(told, "none");
    };
    match sent(alloc, view, source) {
        Ok(stream) => tell_digits(alloc, stream.as_slice(), told),
        Err(refusal) => tell_refusal(alloc, told, refusal),
    }
}

/// Gives a view up, and tells its number in the pool.
pub fn forget<K: Opening>(
    alloc: Global,
    views: &mut Vec<View<K>>,
    view: &str,
    told: &mut Vec<u8>,
) -> Result<(), AllocError> {
    let (place, _) = placed(view);
    if place >= views.len() {
        return tell(told, "none");
    }
    let number = views.swap_remove(place).forget();
    tell_number(alloc, told, number)
}

/// The stream that a view sends, from a source where one is named.
fn sent<K: Opening>(alloc: Global, view: &View<K>, source: &str) -> Result<Bytes, Refusal> {
    if source.is_empty() {
        return view.send(alloc, None);
    }
    let source = Target::read(alloc, source.as_bytes())?;
    view.send(alloc, Some(&source))
}
