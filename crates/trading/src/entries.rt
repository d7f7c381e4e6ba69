// Rows of the tables of entries and of levels, and totals in words.
use market::{Entry, Event};
use std::fmt;

pub const ENTRY_HEADER: &str = "command\tmember\torder\tside\tkind\tlots\tprice\tleaves\treason";

pub const LEVEL_HEADER: &str = "side\tprice\torders\tlots";

/// An entry as a row under the header: its nine values as they are.
#[derive(Clone, Copy)]
pub struct EntryRow(pub Entry);

impl fmt::Display for EntryRow {
    fn fmt<W: fmt::Write>(&self, f: &mut fmt::Formatter<W>) -> fmt::Result {
        let entry = self.0.figures();
        let command = entry.command;
        let member = entry.member;
        let order = entry.order;
        let side = entry.side;
        let kind = entry.kind as char;
        let lots = entry.lots;
        let price = entry.price;
        let leaves = entry.leaves;
        let reason = entry.reason;
        write!(
            f,
            "{command}\t{member}\t{order}\t{side}\t{kind}\t{lots}\t{price}\t{leaves}\t{reason}"
        )
    }
}

/// What happened over a day. A trade is two entries of kind F, and its lots count once.
#[derive(Clone, Copy, Default)]
pub(crate) struct Totals {
    commands: u64,
    accepted: u64,
    turned_down: u64,
    cancelled: u64,
    fills: u64,
    lots: u64,
}

impl Totals {
    pub(crate) fn command(&mut self) {
        self.commands = self.commands.saturating_add(1);
    }

    pub(crate) fn count(&mut self, event: Event) {
        match event {
            Event::Accepted { .. } => self.accepted = self.accepted.saturating_add(1),
            Event::Filled { lots, .. } => {
                self.fills = self.fills.saturating_add(1);
                self.lots = self.lots.saturating_add(u64::from(lots));
            }
            Event::Cancelled { .. } => self.cancelled = self.cancelled.saturating_add(1),
            Event::OrderTurnedDown { .. } | Event::CancelTurnedDown { .. } => {
                self.turned_down = self.turned_down.saturating_add(1);
            }
        }
    }
}

impl fmt::Display for Totals {
    fn fmt<W: fmt::Write>(&self, f: &mut fmt::Formatter<W>) -> fmt::Result {
        let commands = self.commands;
        let accepted = self.accepted;
        let turned_down = self.turned_down;
        let cancelled = self.cancelled;
        let trades = self.fills / 2;
        let lots = self.lots / 2;
        write!(
            f,
            "total\t{commands} commands\t{accepted} accepted\t{turned_down} turned down\t{cancelled} cancelled\t{trades} trades\t{lots} lots traded"
        )
    }
}
