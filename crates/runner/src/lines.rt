// Writing the line of each event, and that of a fault.
ghost use Rattle.std.specs.Prelude.{◌+◌, ◌≤◌, [], ◌∷◌, map, length};
ghost use Rattle.dispatcher.specs.Machine.{call_of};
ghost use Rattle.runner.specs.Lines.{entry_line, fault_line, line_of, warning_line};
ghost use Rattle.runner.specs.Output.{Wrote};
ghost use Rattle.runner.specs.Room.{BriefEntry, BriefEvent, BriefFault, BriefWarning, room, room_for};
ghost use Rattle.std.specs.List.{flat_map, AllByRecursion};

use crate::text::{write_line, write_none};
use dispatcher::entry::{Entry, Warning};
use dispatcher::event::Event;
use messages::message::Message;
use steps::fault::Fault;

// The line of an event whose numbers are brief.
fn write_event<M: Message>(out: &mut [u8], at: usize, event: Event<M>) -> usize
    requires room { at + room (call_of event) ≤ length out.old }
    requires brief { BriefEvent event }
    ensures wrote { Wrote out.old at (line_of M.Message.pad M.Message.kind event) out.new result }
    ensures short { result ≤ at + room (call_of event) }
{
    match event {
        Event::Refused(_, refusal) => write_line(out, at, b'R', &[refusal.number() as usize]),
        Event::Opened(_, _) => at,
        Event::Posted(entry) => {
            let numbers = [entry.receipt as usize, entry.deadline as usize];
            write_line(out, at, b'P', &numbers)
        }
        Event::Dispatched(entry) => write_entry(out, at, b'D', entry),
        Event::Turned(cycle, late) => write_line(out, at, b'T', &[cycle as usize, late]),
        Event::Named(entry) => write_entry(out, at, b'L', entry),
        Event::Warned(_, warning) => write_warning(out, at, warning),
        Event::Begun => at,
        Event::Asked(end) => {
            let numbers = [
                end.accepted,
                end.dispatched,
                end.late,
                end.pending,
                end.waiting,
            ];
            write_line(out, at, b'E', &numbers)
        }
    }
}

// An entry that was given out, or none.
fn write_entry<M: Message>(out: &mut [u8], at: usize, letter: u8, entry: Option<Entry<M>>) -> usize
    requires room { at + 20 ≤ length out.old }
    requires brief { BriefEntry entry }
    ensures wrote { Wrote out.old at (entry_line M.Message.pad M.Message.kind (letter ∷ []) entry) out.new result }
    ensures short { result ≤ at + 20 }
{
    let Some(entry) = entry else {
        return write_none(out, at, letter);
    };
    let receipt = entry.receipt as usize;
    let deadline = entry.deadline as usize;
    let pad = entry.message.pad() as usize;
    let kind = entry.message.kind() as usize;
    let numbers = [receipt, deadline, pad, kind];
    write_line(out, at, letter, &numbers)
}

// What a warning named, or none.
fn write_warning(out: &mut [u8], at: usize, warning: Option<Warning>) -> usize
    requires room { at + 20 ≤ length out.old }
    requires brief { BriefWarning warning }
    ensures wrote { Wrote out.old at (warning_line warning) out.new result }
    ensures short { result ≤ at + 20 }
{
    let Some(warning) = warning else {
        return write_none(out, at, b'W');
    };
    write_line(out, at, b'W', &[warning.ahead, warning.load])
}

// Where the file stops being lawful, if it does.
pub(crate) fn write_fault(out: &mut [u8], at: usize, fault: Option<Fault>) -> usize
    requires room { at + 11 ≤ length out.old }
    requires brief { BriefFault fault }
    ensures { Wrote out.old at (fault_line fault) out.new result }
{
    let Some(fault) = fault else {
        return at;
    };
    write_line(
        out,
        at,
        b'F',
        &[fault.refusal.number() as usize, fault.offset],
    )
}

// The lines of all events, from the start of the output on.
pub(crate) fn write_events<M: Message>(out: &mut [u8], events: &[Event<M>]) -> usize
    requires room { room_for (map call_of events.now) ≤ length out.old }
    requires brief { AllByRecursion BriefEvent events.now }
    ensures wrote { Wrote out.old 0 (flat_map (line_of M.Message.pad M.Message.kind) events.now) out.new result }
    ensures short { result ≤ room_for (map call_of events.now) }
{
    let mut end = 0;
    for event in events {
        end = write_event(out, end, *event);
    }
    end
}
