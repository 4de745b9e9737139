//! What no script of networks can tell of a node, with answers worked out by hand from the rules: a host hands no node
//! a row in its own name, and takes one proposal a slot. And that a node decides, is copied, and takes a step beside
//! itself if there is memory: no clause says so, nor of what it calls for that, from slices that are compiled to rounds
//! of nomination.

ghost use Rattle.std.specs.Prelude.{[], ◌≡◌, IfOk};
ghost use Rattle.node_store.specs.Archives.{AreFiled};
ghost use Rattle.node_core.specs.Filings.{IsFiledEvent};

use line_script::{name_of, slices_of, statement_of};
use node_core::{FiledEvent, Node};
use node_leaders::Draws;
use node_store::{Archive, BoxShelf};
use scp_types::{Envelope, Out, Value};
use std::alloc::Global;
use std::test::Fail;

/// The node A with these slices, before its first event.
fn node(alloc: Global, slices: &[u8]) -> Result<Node, Fail>
    ensures { IfOk result (λ n. n.rows ≡ []) }
{
    let name = name_of(b"A").ok_or("name")?;
    let slices = slices_of(alloc, slices)?.ok_or("slices")?;
    Ok(Node::new(alloc, name, 1, slices))
}

/// What the node of this name says, which needs only B.
fn said(alloc: Global, sender: &[u8], statement: &[u8]) -> Result<Envelope, Fail> {
    let name = name_of(sender).ok_or("name")?;
    let slices = slices_of(alloc, b"1[B]")?.ok_or("slices")?;
    let body = statement_of(alloc, statement)?.ok_or("statement")?;
    Ok(Envelope::new(name, 1, slices, body).ok_or("envelope")?)
}

/// How much the node gives out at an envelope.
fn outs_at(
    alloc: Global,
    archive: &mut Archive<BoxShelf>,
    node: &mut Node,
    envelope: Envelope,
) -> Result<usize, Fail>
    requires { AreFiled archive.old node.old.rows }
    ensures { AreFiled archive.new node.new.rows }
{
    let filed = archive.put(envelope)?;
    let given_out = node.advance(
        alloc,
        archive,
        &mut Draws::new(alloc),
        FiledEvent::Take(filed),
    )?;
    Ok(given_out.outs.len())
}

/// How much it gives out when B and C, who block it, accept that all ballots below 6 are aborted, when a row of its own
/// names <5,q>, and when D does.
fn outs_at_each(
    alloc: Global,
    archive: &mut Archive<BoxShelf>,
    node: &mut Node,
) -> Result<[usize; 4], Fail>
    requires { AreFiled archive.old node.old.rows }
{
    let first = said(alloc, b"B", b"prep(9:m,9:m,6,0,0)")?;
    let first = outs_at(alloc, archive, node, first)?;
    let second = said(alloc, b"C", b"prep(8:k,8:k,6,0,0)")?;
    let second = outs_at(alloc, archive, node, second)?;
    let own = said(alloc, b"A", b"prep(5:q,-,0,0,0)")?;
    let own = outs_at(alloc, archive, node, own)?;
    let named = said(alloc, b"D", b"prep(5:q,-,0,0,0)")?;
    let named = outs_at(alloc, archive, node, named)?;
    Ok([first, second, own, named])
}

// A accepts <5,q> once a reached node names it. What A itself names is no candidate: its own position stands for it,
// and names none.
#[test]
fn a_row_of_its_own_names_no_candidates(rt: HostRuntime) -> Result<(), Fail> {
    let alloc = rt.alloc();
    let mut node = node(alloc, b"2[B,C,D]")?;
    let mut archive = Archive::new(alloc, BoxShelf::new(alloc));
    let outs = outs_at_each(alloc, &mut archive, &mut node);
    drop(node);
    drop(archive);
    assert!(rt; outs? == [0, 0, 0, 2]);
    Ok(())
}

/// The round whose timer is to be armed, if that is all that is given out.
fn round_in(outs: &[Out]) -> Option<u32> {
    match outs {
        [Out::ArmNomination(round)] => Some(*round),
        _ => None,
    }
}

/// The round whose timer an event arms, if it gives out no more.
fn round_at(
    alloc: Global,
    archive: &mut Archive<BoxShelf>,
    node: &mut Node,
    event: FiledEvent,
) -> Result<Option<u32>, Fail>
    requires rows { AreFiled archive.old node.old.rows }
    requires event { IsFiledEvent archive.old event }
    ensures { AreFiled archive.new node.new.rows }
{
    let given_out = node.advance(alloc, archive, &mut Draws::new(alloc), event)?;
    Ok(round_in(&given_out.outs))
}

/// The rounds whose timers are armed when it proposes x, when the timer fires, and when it proposes y.
fn rounds_at_each(
    alloc: Global,
    archive: &mut Archive<BoxShelf>,
    node: &mut Node,
) -> Result<[Option<u32>; 3], Fail>
    requires { AreFiled archive.old node.old.rows }
    ensures { AreFiled archive.new node.new.rows }
{
    let x = Value::of(alloc, b"x")?;
    let first = round_at(alloc, archive, node, FiledEvent::Propose(x))?;
    let second = round_at(alloc, archive, node, FiledEvent::NominationTimer(1))?;
    let y = Value::of(alloc, b"y")?;
    let again = round_at(alloc, archive, node, FiledEvent::Propose(y))?;
    Ok([first, second, again])
}

/// Whether it is in round 1 with the proposal y, and C leads its three rounds.
fn is_in_first_round_again(alloc: Global, node: &Node) -> Result<bool, Fail> {
    let leader = name_of(b"C").ok_or("name")?;
    let y = Value::of(alloc, b"y")?;
    let inputs = node.inputs();
    Ok(
        inputs.round == 1
            && inputs.proposal == Some(y)
            && inputs.leaders.as_slice() == [leader, leader, leader].as_slice(),
    )
}

/// The round of a copy of the node.
fn copied_round(alloc: Global, archive: &Archive<BoxShelf>, node: &Node) -> Result<u32, Fail>
    requires { AreFiled archive.now node.now.rows }
{
    let copy = node.try_copy(alloc, archive)?;
    Ok(copy.inputs().round)
}

/// The round that a step beside the node leads to when the timer of round 1 fires.
fn stepped_round(alloc: Global, archive: &mut Archive<BoxShelf>, node: &Node) -> Result<u32, Fail>
    requires { AreFiled archive.old node.now.rows }
{
    let (stepped, outs) = node.step(alloc, archive, FiledEvent::NominationTimer(1))?;
    drop(outs);
    Ok(stepped.inputs().round)
}

/// Whether all of these rounds, and the node in the end, are as worked out.
fn is_as_told(alloc: Global, archive: &mut Archive<BoxShelf>, node: &mut Node) -> Result<bool, Fail>
    requires { AreFiled archive.old node.old.rows }
{
    let rounds = rounds_at_each(alloc, archive, node)?;
    let copied = copied_round(alloc, archive, node)?;
    let stepped = stepped_round(alloc, archive, node)?;
    let told = rounds == [Some(1), Some(2), Some(1)] && copied == 1 && stepped == 2;
    Ok(told && is_in_first_round_again(alloc, node)?)
}

// The leaders so far stay.
#[test]
fn a_second_proposal_begins_the_first_round_again(rt: HostRuntime) -> Result<(), Fail> {
    let alloc = rt.alloc();
    let mut node = node(alloc, b"2[B,C,D]")?;
    let mut archive = Archive::new(alloc, BoxShelf::new(alloc));
    let told = is_as_told(alloc, &mut archive, &mut node);
    drop(node);
    drop(archive);
    assert!(rt; told?);
    Ok(())
}

/// Whether two statements are sent and x is externalized.
fn has_decided(outs: &[Out], x: &Value) -> bool {
    match outs {
        [Out::Emit(_), Out::Emit(_), Out::Externalized(value)] => value.is_same(x),
        _ => false,
    }
}

/// Whether the node decides when it proposes x.
fn decides(alloc: Global, archive: &mut Archive<BoxShelf>, node: &mut Node) -> Result<bool, Fail>
    requires { AreFiled archive.old node.old.rows }
{
    let x = Value::of(alloc, b"x")?;
    let event = FiledEvent::Propose(x.try_copy()?);
    let given_out = node.advance(alloc, archive, &mut Draws::new(alloc), event)?;
    Ok(has_decided(&given_out.outs, &x))
}

#[test]
fn a_node_that_trusts_itself_alone_decides(rt: HostRuntime) -> Result<(), Fail> {
    let alloc = rt.alloc();
    let mut node = node(alloc, b"1[A]")?;
    let mut archive = Archive::new(alloc, BoxShelf::new(alloc));
    let decided = decides(alloc, &mut archive, &mut node);
    drop(node);
    drop(archive);
    assert!(rt; decided?);
    Ok(())
}
