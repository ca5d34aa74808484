ghost use Rattle.std.specs.Prelude.{◌≡◌, ◌≤◌, length};
ghost use Rattle.office_admission.specs.{Limits.most_partners, Taking.machine_of};

use crate::taking::take;
use crate::tally::Tally;
use crate::{Setup, admit_for};
use office_replies::reply;
use partner_core::{Machine, PartnerId};
use std::alloc::{AllocError, Global};
use std::marker::Model;
use terminal_core::Terminal;

/// The terminal, as what takes the interchanges of its partners.
#[derive(Drop)]
pub struct TerminalMachine {
    setup: Setup,
    terminal: Terminal,
    ghost few: { length setup.partners.items ≤ most_partners },
}

impl Model for TerminalMachine {
    ghost use Rattle.office_admission.specs.Taking.{MachineState, machine_of};
    ghost use Rattle.office_admission.specs.States.{machine_code};

    ghost Value = { MachineState };

    ghost coded = { machine_code };

    ghost view = { λ m. machine_of m.setup m.terminal };
}

impl TerminalMachine {
    /// A machine over a terminal, for the partners and the codes of document names of a set-up.
    pub fn new(setup: Setup, terminal: Terminal) -> TerminalMachine
        requires { length setup.partners.items ≤ most_partners }
        ensures { result ≡ machine_of setup terminal }
    {
        TerminalMachine { setup, terminal }
    }

    /// The terminal, as the interchanges that were taken have left it.
    pub fn terminal(&self) -> &Terminal
        ensures { result.now ≡ self.now.terminal }
    {
        &self.terminal
    }
}

impl Machine for TerminalMachine {
    ghost use Rattle.office_admission.specs.Taking.{interchange_taken};

    ghost taken = { interchange_taken };

    fn step(
        &mut self,
        alloc: Global,
        partner: PartnerId,
        text: &[u8],
    ) -> Result<String, AllocError> {
        let Some(admitted) = admit_for(&self.setup, partner.get(), text) else {
            return reply(alloc, "", &[]);
        };
        let mut terminal = self.terminal.copy(alloc)?;
        let mut changes = Vec::new(alloc);
        let mut tally = Tally::NOTHING;
        let reply = take(
            alloc,
            &self.setup,
            &mut terminal,
            &admitted,
            &mut changes,
            &mut tally,
        )?;
        self.terminal = terminal;
        Ok(reply)
    }

    fn copy(&self, alloc: Global) -> Result<TerminalMachine, AllocError> {
        let setup = self.setup.copy(alloc)?;
        let terminal = self.terminal.copy(alloc)?;
        Ok(TerminalMachine { setup, terminal })
    }
}
