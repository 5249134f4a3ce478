//! A pool as a caller.
ghost use Rattle.std.specs.Prelude.{◌≡◌, ℕ, List, Option};
ghost use Rattle.model.specs.State.{State};
ghost use Rattle.runner.specs.Serving.{Serves};
ghost use Rattle.script.specs.declared.run.LineFault.{LineFault};
ghost use Rattle.script.specs.Meaning.{Meaning};
ghost use Rattle.script.specs.Served.{IsUnserved};
ghost use Rattle.script.specs.Text.{has_any_length};

use base::name::DsName;
use model::reply::Reply;
use model::request::{ObjectBlock, Request};
use script::run::Caller;
use script::spare::SpareTarget;
use session::Pool;
use std::alloc::Global;
use std::marker::Model;

/// A pool that answers a script, with the allocator for its requests. It owns the pool meanwhile: move your pool in, lend this to
/// `script::run::run_script`, and then move the pool out again, in its state after the last request. Contracts see the pool's state. Each request
/// has a reply, which is that of a step of the pool, NoMemory where memory was refused. Both fields are public, and to make it or to take it
/// apart costs nothing.
#[derive(Drop)]
pub struct PoolCaller {
    /// The allocator that the requests use.
    pub alloc: Global,
    /// The pool that answers.
    pub pool: Pool,
}

impl Model for PoolCaller {
    ghost use Rattle.model.specs.State.{State};
    ghost use Rattle.model.specs.Codes.{state_code};

    ghost Value = { State };

    ghost coded = { state_code };

    ghost view = { λ s. s.pool.state };
}

impl Caller for PoolCaller {
    ghost asks = { Serves };

    fn ask(&mut self, request: Request, reply: &mut Reply, spare: &mut SpareTarget) -> bool {
        self.pool.apply(self.alloc, &request, reply);
        spare.keep(request);
        true
    }

    fn read_ahead(&self, name: &[u8], blocks: &[ObjectBlock]) -> u32 {
        match DsName::read(self.alloc, name) {
            Ok(name) => self.pool.read_ahead(&name, blocks),
            Err(_) => 0,
        }
    }
}

/// A line for which `script::run::answer_line` returns a fault leaves the pool unchanged. Either there was no memory for the line or for its
/// request; or the line asked for names, a text or a stream, and there was no memory for the line of the reply.
#[tactic(auto, using(crate::proofs::Unserved::unserved_same))]
pub fn unserved_laws()
    ensures same { (m : Meaning) (held held' : Option (List ℕ)) (s t : State) (fault : LineFault) → IsUnserved Serves m has_any_length held held' s t fault → t ≡ s }
{}
