//! Work on a million free numbers of which no two stand side by side.
use base::refusal::Refusal;
use std::alloc::Global;
use zalloc::Allocator;

/// How many numbers there are.
const NUMBERS: u32 = 2_000_000;

/// Takes every second number.
fn take_every_second(allocator: &mut Allocator) {
    let mut from = 0;
    for _ in 0..NUMBERS / 2 {
        let Some(number) = allocator.find(from) else {
            return;
        };
        allocator.take(number);
        from = number.0.saturating_add(2);
    }
}

/// The next number of a sequence that looks random.
fn next(seed: u64) -> u64 {
    seed.wrapping_mul(6_364_136_223_846_793_005)
        .wrapping_add(1_442_695_040_888_963_407)
}

/// Takes the first free number from a random one on in each round, and releases it: how many were taken.
pub fn take_and_release(alloc: Global, rounds: u32) -> Result<u64, Refusal> {
    let mut allocator = Allocator::new(alloc, NUMBERS)?;
    take_every_second(&mut allocator);
    let mut seed = 1u64;
    let mut taken = 0u64;
    for _ in 0..rounds {
        seed = next(seed);
        let from = (seed >> 33) as u32 % NUMBERS;
        if let Some(number) = allocator.find(from) {
            allocator.take(number);
            allocator.release(number, false);
            taken = taken.saturating_add(1);
        }
    }
    drop(allocator);
    Ok(taken)
}
