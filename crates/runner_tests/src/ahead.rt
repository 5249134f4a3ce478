//! What is read ahead of the lines that are answered, counted by hand.
use base::data::Data;
use base::name::Target;
use base::refusal::Refusal;
use model::reply::Reply;
use model::request::{ObjectBlock, Request};
use runner::{Pool, PoolCaller};
use script::run::Caller;
use std::alloc::Global;
use std::process::Abort;

/// A pool whose root file system has all 4,096 blocks of object 0. With the blocks above them these are 4,371.
fn filled(alloc: Global) -> Result<PoolCaller, Refusal> {
    let mut pool = Pool::create(alloc, 1, 5000)?;
    for block in 0..4096u32 {
        let write = Request::Write {
            target: Target::read(alloc, b"p")?,
            object: 0,
            block,
            bytes: Data::new(alloc, &[7; 512])?,
        };
        let mut reply = Reply::Done;
        pool.apply(alloc, &write, &mut reply);
        drop(write);
        if !reply.same(&Reply::Done) {
            drop(reply);
            drop(pool);
            return Err(Refusal::NoSpace);
        }
        drop(reply);
    }
    Ok(PoolCaller { alloc, pool })
}

/// So many blocks of object 0, from one on.
fn blocks_from(first: u32) -> [ObjectBlock; 20] {
    let mut blocks = [ObjectBlock::default(); 20];
    let mut block = first;
    for at in 0..20 {
        blocks[at] = ObjectBlock { object: 0, block };
        block = block.wrapping_add(100);
    }
    blocks
}

#[test]
fn sixteen_paths_have_six_nodes_each(rt: HostRuntime) {
    let caller = filled(rt.alloc()).expect(&rt, "memory");
    let blocks = blocks_from(3);
    assert!(rt; caller.read_ahead(b"p", &blocks) == 96);
    assert!(rt; caller.read_ahead(b"p", &blocks[..2]) == 12);
    assert!(rt; caller.read_ahead(b"p", &blocks[..0]) == 0);
}

#[test]
fn a_path_ends_where_there_is_no_node(rt: HostRuntime) {
    let caller = filled(rt.alloc()).expect(&rt, "memory");
    let blocks = [
        ObjectBlock {
            object: 255,
            block: 0,
        },
        ObjectBlock {
            object: 0,
            block: 5,
        },
        ObjectBlock {
            object: 256,
            block: 0,
        },
    ];
    assert!(rt; caller.read_ahead(b"p", &blocks[..1]) == 1);
    assert!(rt; caller.read_ahead(b"p", &blocks[..2]) == 7);
    assert!(rt; caller.read_ahead(b"p", &blocks) == 7);
}

#[test]
fn nothing_is_read_of_few_blocks_or_of_no_file_system(rt: HostRuntime) {
    let alloc = rt.alloc();
    let blocks = blocks_from(0);
    let caller = filled(alloc).expect(&rt, "memory");
    assert!(rt; caller.read_ahead(b"p/a", &blocks) == 0);
    assert!(rt; caller.read_ahead(b"p/", &blocks) == 0);
    let pool = Pool::create(alloc, 1, 5000).expect(&rt, "memory");
    let caller = PoolCaller { alloc, pool };
    assert!(rt; caller.read_ahead(b"p", &blocks) == 0);
}
