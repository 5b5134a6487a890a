// The six arrays of a device as one struct: the node that they hold, and fresh ones. What the calls promise of them is in specs/.
#![tactic(auto)]

ghost use Rattle.std.specs.Prelude.{◌≡◌};
ghost use Rattle.store.specs.View.{state_of, node_at, with_node, Sized};
ghost use Rattle.store.specs.Promises.{FreshLeft};

use channels::fields::{
    Deltas, FLAGS, Flags, LIMITS, Limits, OCTETS, Octets, VALUES, Values, set_modes, set_sources,
    zero_deltas,
};
use lines::machines;
use mappings::{MAPPINGS, empty_received, empty_transmitted};
use nodes::fresh;
use profile::{Node, State};
use windows::Words;

// In octets.
const NUMBER: usize = 0;

const STATE: usize = 1;

const BEHAVIOUR: usize = 2;

// Past the octets of the channels.
const LENGTH: usize = 21;

// In flags.
const INTERNAL: usize = 0;

const LOST: usize = 1;

const DIGITAL: usize = 2;

const ANALOGUE: usize = 3;

// The arrays that the device lends, by element type.
#[repr(C)]
#[derive(Clone, Copy)]
pub struct Store {
    pub octets: Octets,
    pub flags: Flags,
    pub words: Words,
    pub limits: Limits,
    pub deltas: Deltas,
    pub values: Values,
}

impl Store {
    pub fn node(&self) -> Node
        ensures { result ≡ node_at self.now.octets self.now.flags }
    {
        Node {
            number: self.octets[NUMBER],
            state: state_of(self.octets[STATE]),
            internal: self.flags[INTERNAL],
            lost: self.flags[LOST],
            behaviour: self.octets[BEHAVIOUR],
            digital: self.flags[DIGITAL],
            analogue: self.flags[ANALOGUE],
            length: self.octets[LENGTH],
        }
    }

    // A caller's proof learns the lengths of the arrays too.
    pub fn set_node(&mut self, new: Node)
        ensures stored { self.new ≡ with_node new self.old }
        ensures sized { Sized self.old }
    {
        self.octets[NUMBER] = new.number;
        self.octets[STATE] = new.state as u8;
        self.octets[BEHAVIOUR] = new.behaviour;
        self.octets[LENGTH] = new.length;
        self.flags[INTERNAL] = new.internal;
        self.flags[LOST] = new.lost;
        self.flags[DIGITAL] = new.digital;
        self.flags[ANALOGUE] = new.analogue;
    }

    // Every object at its default: the zeros in parts with other stores between, since one fill of more than 256 bytes would call memset.
    pub fn set_fresh(&mut self, number: u8)
        ensures { FreshLeft number self.new }
    {
        // Every selection is 7.
        self.octets = [7; OCTETS];
        set_sources(&mut self.octets, 0);
        self.flags = [false; FLAGS];
        self.set_node(fresh(number));
        zero_deltas(&mut self.deltas, 0, MAPPINGS);
        set_modes(&mut self.flags);
        empty_received(&mut self.deltas);
        self.limits = [0; LIMITS];
        self.values = [0; VALUES];
        machines::fresh(&mut self.words);
        empty_transmitted(&mut self.deltas);
        watches::empty(&mut self.deltas);
    }
}

// A number that no state has counts as stopped.
fn state_of(number: u8) -> State
    ensures { result ≡ state_of number }
{
    match number {
        127 => State::PreOperational,
        5 => State::Operational,
        _ => State::Stopped,
    }
}
