//! What is submitted, dealt to the networks.

ghost use Rattle.std.specs.Prelude.{◌≡◌, IfOk, []};
ghost use Rattle.pool_script.specs.Dealing.{AreDealt, AreNetworkShares, calls_elsewhere};

use host_config::NetConfig;
use scp_types::Event;
use std::alloc::{AllocError, Global};
use std::collections::BTreeMap;

/// What is submitted to one network: its configuration, and its events, in order, each with its number.
#[derive(Drop)]
pub struct Share {
    pub config: NetConfig,
    pub calls: Vec<(u32, Event)>,
}

/// What is submitted to each network that is declared, ascending by number, and what is to none of them, in order. An
/// error says that it is out of memory.
pub fn deal(
    alloc: Global,
    configs: Vec<NetConfig>,
    calls: Vec<(u32, Event)>,
) -> Result<(Vec<Share>, Vec<(u32, Event)>), AllocError>
    ensures shares { IfOk result (λ r. AreNetworkShares configs.items calls.items r.0.items) }
    ensures elsewhere { IfOk result (λ r. r.1.items ≡ calls_elsewhere configs.items calls.items) }
{
    let mut shares = by_number(alloc, configs)?;
    let mut elsewhere = Vec::new(alloc);
    for (number, event) in calls {
        match shares.get_mut(&number) {
            Some(share) => share.calls.push((number, event))?,
            None => elsewhere.push((number, event))?,
        }
    }
    let mut ascending = Vec::with_capacity(alloc, shares.len())?;
    for (_, share) in shares {
        ascending.push(share)?;
    }
    Ok((ascending, elsewhere))
}

/// A share of nothing for each network.
fn by_number(alloc: Global, mut configs: Vec<NetConfig>) -> Result<BTreeMap<u32, Share>, AllocError>
    ensures { IfOk result (AreDealt configs.items []) }
{
    let mut shares = BTreeMap::new(alloc);
    while let Some(config) = configs.pop() {
        let share = Share {
            config,
            calls: Vec::new(alloc),
        };
        let number = share.config.number();
        if shares.insert(number, share).is_err() {
            // Memory: the map has no room.
            return Err(AllocError);
        }
    }
    Ok(shares)
}
