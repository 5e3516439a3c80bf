//! Bodies put together from parts.
ghost use Rattle.std.specs.Prelude.{◌++◌};

use yl_devices::WriteFault;
use yl_frames::{Body, Pieces, put_text};

/// Two bodies, one after the other.
#[derive(Drop)]
pub struct Joined<A, B>(pub A, pub B);

impl<A: Body, B: Body> Body for Joined<A, B> {
    ghost text = { λ j. A.text j.0 ++ B.text j.1 };

    fn put<P: Pieces>(&self, to: &mut P) -> Result<(), WriteFault> {
        self.0.put(to)?;
        self.1.put(to)
    }
}

/// A text as it stands.
#[derive(Drop)]
pub struct Plain<'a>(pub &'a str);

impl Body for Plain<'_> {
    ghost text = { λ p. p.0.now };

    fn put<P: Pieces>(&self, to: &mut P) -> Result<(), WriteFault> {
        to.put(self.0.as_bytes())
    }
}

/// A text in quotes, with JSON's escapes.
#[derive(Drop)]
pub struct Quoted<'a>(pub &'a str);

impl Body for Quoted<'_> {
    ghost use Rattle.json.specs.Print.{quoted};

    ghost text = { λ q. quoted q.0.now };

    fn put<P: Pieces>(&self, to: &mut P) -> Result<(), WriteFault> {
        put_text(to, self.0)
    }
}

/// A body that is lent.
#[derive(Drop)]
pub struct Lent<'a, B>(pub &'a B);

impl<B: Body> Body for Lent<'_, B> {
    ghost text = { λ l. B.text l.0.now };

    fn put<P: Pieces>(&self, to: &mut P) -> Result<(), WriteFault> {
        self.0.put(to)
    }
}
