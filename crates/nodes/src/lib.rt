// Document 01, "Node state and faults": what calls and causes make of a node.
#![tactic(auto)]

ghost use Rattle.std.specs.Prelude.{◌≡◌, ◌<◌};
ghost use Rattle.profile.specs.declared.Home.{Home};
ghost use Rattle.profile.specs.Nodes.{stopped, operational, fault, fresh_node, loss_state, raise_node, clear_node};
ghost use Rattle.profile.specs.Nodes.{addressed, reset_communication, obey_node};
ghost use Rattle.profile.specs.Commands.{command_code};
ghost use Rattle.profile.specs.NodeAlone.{write_node, read_node};

use profile::commands::Command;
use profile::{Cause, Node, State};

// Bits of the error register.
const GENERIC_ERROR: u32 = 0x01;

const COMMUNICATION_ERROR: u32 = 0x10;

pub fn fresh(number: u8) -> Node
    ensures { result ≡ fresh_node number }
{
    Node {
        number,
        state: State::PreOperational,
        internal: false,
        lost: false,
        behaviour: 0,
        digital: true,
        analogue: false,
        length: 3,
    }
}

pub fn is_stopped(node: Node) -> bool
    ensures { result ≡ stopped node }
{
    node.state == State::Stopped
}

pub fn is_operational(node: Node) -> bool
    ensures { result ≡ operational node }
{
    node.state == State::Operational
}

#[tactic(auto, unfolding(profile::specs::Nodes::fault))]
pub fn in_fault(node: Node) -> bool
    ensures { result ≡ fault node }
{
    node.internal | node.lost | is_stopped(node)
}

// The cause becomes present, unless it is already.
#[tactic(auto, unfolding(profile::specs::Nodes::raise_node))]
pub fn raised(node: Node, cause: Cause) -> Node
    ensures { result ≡ raise_node cause node }
{
    match cause {
        Cause::Internal => Node {
            internal: true,
            ..node
        },
        Cause::Lost if node.lost => node,
        Cause::Lost => Node {
            lost: true,
            state: after_loss(node.behaviour, node.state),
            ..node
        },
    }
}

#[tactic(auto, unfolding(profile::specs::Nodes::clear_node))]
pub fn cleared(node: Node, cause: Cause) -> Node
    ensures { result ≡ clear_node cause node }
{
    match cause {
        Cause::Internal => Node {
            internal: false,
            ..node
        },
        Cause::Lost => Node {
            lost: false,
            ..node
        },
    }
}

// A command for node 0 is for all nodes.
#[tactic(auto, unfolding(profile::specs::Nodes::addressed))]
pub fn is_addressed(node: Node, to: u8) -> bool
    ensures { result ≡ addressed to node }
{
    (to == 0) | (to == node.number)
}

// The node after the command of a code; any other code leaves it.
#[tactic(auto, unfolding(profile::specs::Nodes::obey_node))]
pub fn obeyed(node: Node, code: u8) -> Node
    ensures { result ≡ obey_node code node }
{
    match Command::try_from(code) {
        Ok(command) => commanded(node, command),
        Err(_) => node,
    }
}

#[tactic(auto, unfolding(profile::specs::Nodes::obey_node))]
fn commanded(node: Node, command: Command) -> Node
    ensures { result ≡ obey_node (command_code command) node }
{
    let state = match command {
        Command::Start => State::Operational,
        Command::Stop => State::Stopped,
        Command::EnterPreOperational => State::PreOperational,
        Command::ResetNode => return fresh(node.number),
        Command::ResetCommunication => return with_communication_reset(node),
    };
    Node { state, ..node }
}

fn with_communication_reset(node: Node) -> Node
    ensures { result ≡ reset_communication node }
{
    Node {
        lost: false,
        behaviour: 0,
        state: State::PreOperational,
        ..node
    }
}

// An accepted write of 1029:1, 2003:0, 6005:0 or 6423:0; any other index leaves the node.
pub fn written(node: Node, index: u16, value: u32) -> Node
    requires { value < 256 }
    ensures { result ≡ write_node (Home.Device index) value node }
{
    match index {
        0x1029 => Node {
            behaviour: value as u8,
            ..node
        },
        0x2003 => Node {
            length: value as u8,
            ..node
        },
        0x6005 => Node {
            digital: value == 1,
            ..node
        },
        0x6423 => Node {
            analogue: value == 1,
            ..node
        },
        _ => node,
    }
}

#[tactic(auto, unfolding(profile::specs::NodeAlone::read_node))]
pub fn read(node: Node, index: u16) -> u32
    ensures { result ≡ read_node index node }
{
    match index {
        0x1001 => error_register(node),
        0x1029 => u32::from(node.behaviour),
        0x2003 => u32::from(node.length),
        0x6005 => u32::from(node.digital),
        _ => u32::from(node.analogue),
    }
}

// Bit 0 for any cause, also bit 4 for communication loss.
#[tactic(auto, unfolding(profile::specs::NodeAlone::read_node))]
fn error_register(node: Node) -> u32
    ensures { result ≡ read_node 0x1001 node }
{
    if node.lost {
        GENERIC_ERROR + COMMUNICATION_ERROR
    } else if node.internal {
        GENERIC_ERROR
    } else {
        0
    }
}

// 1029:1 decides what communication loss does to the state.
fn after_loss(behaviour: u8, state: State) -> State
    ensures { result ≡ loss_state behaviour state }
{
    match (behaviour, state) {
        (0, State::Operational) => State::PreOperational,
        (2, _) => State::Stopped,
        _ => state,
    }
}
