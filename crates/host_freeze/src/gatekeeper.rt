ghost use Rattle.std.specs.Prelude.{◌≡◌, ◌↔◌, true, false, not};

use std::marker::Model;

/// Whether a port is frozen, whether recovery is asked for, and whether recovery runs. Each is true or false whatever
/// the other two are: recovery may be asked for again while it runs.
/// A contract sees it as the three answers.
#[derive(Clone, Copy, Debug, PartialEq, Eq)]
pub struct Gatekeeper {
    frozen: bool,
    asked: bool,
    running: bool,
}

impl Model for Gatekeeper {
    ghost use Rattle.host_freeze.specs.GatekeeperView.{GatekeeperView};

    ghost Value = { GatekeeperView };

    ghost view = { λ g. record { frozen = g.frozen; asked = g.asked; running = g.running } };

    ghost inverse = { λ view. record { frozen = view.frozen; asked = view.asked; running = view.running } };
}

impl Gatekeeper {
    ghost use Rattle.host_freeze.specs.GatekeeperView.{first_gatekeeper, begun, ended, is_recovering};

    /// The port isn't frozen, and recovery is neither asked for nor running.
    pub fn new() -> Gatekeeper
        ensures { result ≡ first_gatekeeper }
    {
        Gatekeeper {
            frozen: false,
            asked: false,
            running: false,
        }
    }

    /// Freezes the port. False exactly where nothing changed, since it was frozen already.
    pub fn freeze(&mut self) -> bool
        ensures view { self.new ≡ record self.old { frozen = true } }
        ensures answer { result ≡ not self.old.frozen }
        ensures unchanged { (result ≡ false) ↔ (self.new ≡ self.old) }
    {
        let changes = !self.frozen;
        self.frozen = true;
        changes
    }

    /// Ends the freeze. False exactly where nothing changed, since the port wasn't frozen.
    pub fn thaw(&mut self) -> bool
        ensures view { self.new ≡ record self.old { frozen = false } }
        ensures answer { result ≡ self.old.frozen }
        ensures unchanged { (result ≡ false) ↔ (self.new ≡ self.old) }
    {
        let changes = self.frozen;
        self.frozen = false;
        changes
    }

    /// Asks for recovery, also while it runs. False exactly where it was asked for already; then nothing changes.
    pub fn request(&mut self) -> bool
        ensures view { self.new ≡ record self.old { asked = true } }
        ensures answer { result ≡ not self.old.asked }
        ensures unchanged { (result ≡ false) ↔ (self.new ≡ self.old) }
    {
        let changes = !self.asked;
        self.asked = true;
        changes
    }

    /// Recovery begins: it runs, and what was asked for has begun. The freeze stays.
    pub fn begin(&mut self)
        ensures { self.new ≡ begun self.old }
    {
        self.asked = false;
        self.running = true;
    }

    /// Recovery ends. What was asked for since it began stays asked for, and the freeze stays.
    pub fn end(&mut self)
        ensures { self.new ≡ ended self.old }
    {
        self.running = false;
    }

    /// Whether the port is frozen.
    pub fn frozen(&self) -> bool
        ensures { result ≡ self.now.frozen }
    {
        self.frozen
    }

    /// Whether recovery is asked for and hasn't begun since.
    pub fn asked(&self) -> bool
        ensures { result ≡ self.now.asked }
    {
        self.asked
    }

    /// Whether recovery has begun and hasn't ended.
    pub fn running(&self) -> bool
        ensures { result ≡ self.now.running }
    {
        self.running
    }

    /// Whether the port recovers: recovery is asked for or runs.
    pub fn recovering(&self) -> bool
        ensures { result ≡ is_recovering self.now }
    {
        self.asked || self.running
    }
}

impl Default for Gatekeeper {
    ghost use Rattle.host_freeze.specs.GatekeeperView.{first_gatekeeper};

    ghost is_default = { λ g. g ≡ first_gatekeeper };

    /// As `new`.
    fn default() -> Gatekeeper {
        Gatekeeper::new()
    }
}
