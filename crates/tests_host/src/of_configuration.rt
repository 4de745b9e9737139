//! That a network is configured and copied if there is memory, and that faults have words. What a configuration has,
//! and which fault is answered, is said by contracts; each limit is tried through the program.

use crate::fixtures::{name, one_node};
use host_config::{Budgets, ConfigError, NetConfig, Reservation, Shares};
use std::alloc::Global;
use std::test::Fail;

const SHARES: Shares = Shares {
    own: 10,
    pair: 10,
    bytes: 1000,
    opens: 4,
};

/// A network whose one node trusts only itself, with a roster of two names.
fn config(alloc: Global) -> Option<NetConfig> {
    let nodes = one_node(alloc, 7, 7)?;
    let roster = Reservation {
        names: vec![in alloc; name(2), name(1)].ok()?,
        shares: SHARES,
    };
    NetConfig::with_roster(alloc, 6, nodes, Budgets::new(100, 1000, 4)?, roster).ok()
}

/// Whether a copy has the roster.
fn is_copied(alloc: Global, config: &NetConfig) -> Option<bool> {
    let copy = config.try_copy(alloc).ok()?;
    Some(is_on_roster(&copy))
}

/// Whether the two names are those of the roster.
fn is_on_roster(config: &NetConfig) -> bool {
    match config.roster() {
        Some(roster) => roster.names() == [name(1), name(2)].as_slice(),
        None => false,
    }
}

#[test]
fn a_network_is_copied_where_there_is_memory(rt: HostRuntime) -> Result<(), Fail> {
    let alloc = rt.alloc();
    let config = config(alloc).ok_or("memory")?;
    let copied = is_copied(alloc, &config);
    drop(config);
    assert!(rt; copied.ok_or("memory")?);
    Ok(())
}

#[test]
fn a_fault_has_words(rt: HostRuntime) -> Result<(), Fail> {
    let text = format!(in rt.alloc(); "{}", ConfigError::NodeTwice)?;
    assert_eq!(rt; text.as_str(), "a name stands twice among the nodes");
    Ok(())
}
