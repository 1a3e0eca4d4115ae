// One button.

ghost use Rattle.std.specs.Prelude.{◌≡◌};

use std::marker::Model;

/// Whether a button is pressed, and how often it was.
#[derive(Drop)]
pub(crate) struct Button {
    pressed: u8,
    presses: u8,
}

impl Model for Button {
    ghost use Rattle.nxt_model.specs.Devices.{Button as Pressed};

    ghost Value = { Pressed };

    ghost view = { λ b. record { pressed = b.pressed; presses = b.presses } };
}

impl Button {
    pub fn new(pressed: u8, presses: u8) -> Button
        ensures { result ≡ record { pressed = pressed; presses = presses } }
    {
        Button { pressed, presses }
    }

    /// Whether it is pressed, and how often it was.
    pub fn state(&self) -> (u8, u8)
        ensures { result ≡ (self.now.pressed, self.now.presses) }
    {
        (self.pressed, self.presses)
    }

    pub fn reset_count(&mut self)
        ensures { self.new ≡ record { pressed = self.old.pressed; presses = 0 } }
    {
        self.presses = 0;
    }
}
