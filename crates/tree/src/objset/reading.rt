//! Reads of a block.
ghost use Rattle.std.specs.Prelude.{◌≡◌, ◌≤◌, ◌⊎◌, ◌↔◌, IfOk, IfErr, OnOk, OnErr};
ghost use Rattle.std.specs.FinMap.{get};
ghost use Rattle.std.specs.Option.{option_copied};
ghost use Rattle.base.specs.Counting.{counted};
ghost use Rattle.base.specs.Key.{leaf_index};
ghost use Rattle.tree.specs.Blocks.{IsNoBlock};
ghost use Rattle.base.specs.Map.{contents};
ghost use Rattle.base.specs.declared.refusal.Refusal.{Refusal};
ghost use Rattle.tree.specs.Reading.{present_on_path};

use crate::Tree;
use crate::objset::leaf::leaf_of;
use base::meter::Meter;
use base::number::Key;
use base::refusal::Refusal;

/// The 512 bytes of a block of an object, or none where it is a hole. BadKey exactly where the object is above 255 or the block above 4095, and
/// then no node was reached. The bytes are borrowed from the tree. It takes no memory. It costs the nodes from the root to the block, which the
/// meter counts: at most six.
pub fn read<'a>(
    tree: &'a Tree,
    object: u32,
    block: u32,
    meter: &mut Meter,
) -> Result<Option<&'a [u8; 512]>, Refusal>
    ensures ok { IfOk result (λ bytes. option_copied bytes ≡ get (contents tree.now) (leaf_index object block)) }
    ensures bad_key { (result ≡ Err Refusal.BadKey) ↔ IsNoBlock object block }
    ensures only { IfErr result (λ e. e ≡ Refusal.BadKey) }
    ensures metered { OnOk result (meter.new ≡ counted meter.old (present_on_path tree.now (record { level = 0; index = leaf_index object block }))) }
    ensures unmetered { OnErr result (meter.new ≡ meter.old) }
    ensures never_lower { meter.old ≤ meter.new }
{
    let Some(leaf) = leaf_of(object, block) else {
        return Err(Refusal::BadKey);
    };
    let key = Key {
        level: 0,
        index: leaf,
    };
    match tree.read(key, meter) {
        Some(cell) => Ok(cell.bytes),
        None => Ok(None),
    }
}
