//! Feeds, shared out to workers.
ghost use Rattle.std.specs.Prelude.{◌≡◌, ◌<◌, ◌++◌, ◌∷◌, [], map, replicate, IfOk, IfErr, OnOk};
ghost use Rattle.fkv_workers.specs.Shares.{AreDealt};

use fkv_functions::Refused;
use std::alloc::Global;

/// What a worker takes: items with their places, counted from 0.
pub type FeedShare<T> = Vec<(usize, T)>;

/// Adds an item. Refused: `NoMemory`.
fn keep<T: Drop>(items: &mut Vec<T>, item: T) -> Result<(), Refused>
    ensures ok { OnOk result (items.new.items ≡ items.old.items ++ item ∷ []) }
    ensures only { IfErr result (λ refused. refused ≡ Refused.NoMemory) }
{
    match items.push(item) {
        Ok(()) => Ok(()),
        Err(_) => Err(Refused::NoMemory),
    }
}

/// So many shares with nothing in them. Refused: `NoMemory`.
fn shares<T: Drop>(alloc: Global, workers: usize) -> Result<Vec<FeedShare<T>>, Refused>
    ensures ok { IfOk result (λ shares. map (λ share. share.items) shares.items ≡ replicate workers []) }
    ensures only { IfErr result (λ refused. refused ≡ Refused.NoMemory) }
{
    let mut shares = Vec::new(alloc);
    for _ in 0..workers {
        match keep(&mut shares, Vec::new(alloc)) {
            Ok(()) => {}
            Err(refused) => return Err(refused),
        }
    }
    Ok(shares)
}

/// Shares items out to so many workers, one in turn. Refused: `NoMemory`.
pub fn share_out<T: Drop>(
    alloc: Global,
    items: Vec<T>,
    workers: usize,
) -> Result<Vec<FeedShare<T>>, Refused>
    requires { 0 < workers }
    ensures ok { IfOk result (λ shares. AreDealt workers items.items (map (λ share. share.items) shares.items)) }
    ensures only { IfErr result (λ refused. refused ≡ Refused.NoMemory) }
{
    let mut shares = match shares(alloc, workers) {
        Ok(shares) => shares,
        Err(refused) => return Err(refused),
    };
    let mut place = 0;
    for item in items {
        match keep(&mut shares[place % workers], (place, item)) {
            Ok(()) => {}
            Err(refused) => return Err(refused),
        }
        place += 1;
    }
    Ok(shares)
}
