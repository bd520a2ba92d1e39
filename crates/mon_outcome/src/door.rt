//! Where an action lets a packet out.

ghost use Rattle.std.specs.Prelude.{◌≡◌, ◌<◌, ◌^◌};
ghost use Rattle.mon_outcome.specs.Emitting.{is_unknown, any_unknown, port_door, door_of};

use mon_header::Action;

/// The highest number of a port of the switch.
const PORT_MAX: u16 = 0xff00;
/// The reserved port that stands for the packet's own.
const IN_PORT: u16 = 0xfff8;
/// The reserved port that stands for the controller.
const CONTROLLER: u16 = 0xfffd;
/// The bytes with which the controller has every probe frame whole.
const WHOLE_LEN: u16 = 128;

/// A way out of the switch: a port, or the controller, which sees the whole packet or a part of it.
#[derive(Clone, Copy, Debug)]
pub enum Door {
    Port(u16),
    Controller { whole: bool },
}

/// Whether what a switch does by this action isn't known.
pub fn is_unknown(action: &Action) -> bool
    ensures { result ≡ is_unknown action.now }
{
    match action {
        Action::Output { port, .. } => {
            !(*port <= PORT_MAX || *port == IN_PORT || *port == CONTROLLER)
        }
        Action::Enqueue { port, .. } => !(*port <= PORT_MAX || *port == IN_PORT),
        Action::Unknown(_) => true,
        _ => false,
    }
}

/// Whether some action is unknown.
pub fn any_unknown(actions: &[Action]) -> bool
    ensures { result ≡ any_unknown actions.now }
{
    for action in actions {
        if is_unknown(action) {
            return true;
        }
    }
    false
}

/// The way out to a port that an action names, of a packet that came in at `in_port`.
fn port_door(port: u16, in_port: u16) -> Option<Door>
    ensures { result ≡ port_door port in_port }
{
    if port <= PORT_MAX {
        if port == in_port {
            None
        } else {
            Some(Door::Port(port))
        }
    } else if port == IN_PORT {
        Some(Door::Port(in_port))
    } else {
        None
    }
}

/// The way out by which an action emits a packet that came in at `in_port`, where that is known.
pub fn door_of(action: &Action, in_port: u16) -> Option<Door>
    ensures { result ≡ door_of action.now in_port }
{
    match action {
        Action::Output { port, max_len } => {
            if *port == CONTROLLER {
                Some(Door::Controller {
                    whole: *max_len >= WHOLE_LEN,
                })
            } else {
                port_door(*port, in_port)
            }
        }
        Action::Enqueue { port, .. } => port_door(*port, in_port),
        _ => None,
    }
}
