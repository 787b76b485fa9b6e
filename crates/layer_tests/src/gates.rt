use outside_core::{Gate, GateEvent, OpenGate};
use std::cell::Cell;

/// Notes the event that it was told last.
#[derive(Drop)]
struct Noted {
    last: Cell<Option<GateEvent>>,
}

impl Gate for Noted {
    fn at(&self, event: GateEvent) {
        self.last.set(Some(event));
    }
}

fn tell<G: Gate>(gate: &G, event: GateEvent) {
    gate.at(event);
}

fn tell_shared<G: Gate + Send + Sync>(gate: &G, event: GateEvent) {
    gate.at(event);
}

/// The event that a gate noted.
fn last_told(event: GateEvent) -> Option<GateEvent> {
    let gate = Noted {
        last: Cell::new(None),
    };
    tell_shared(&OpenGate, event);
    tell(&gate, event);
    gate.last.get()
}

#[test]
fn gates_are_told_events(rt: HostRuntime) {
    let begin = GateEvent::TileBegin {
        session: 2,
        command: 3,
        tile: 0,
    };
    let committed = GateEvent::Committed {
        session: 2,
        version: 7,
    };
    assert!(rt; last_told(begin) == Some(begin));
    assert!(rt; last_told(committed) == Some(committed));
}
