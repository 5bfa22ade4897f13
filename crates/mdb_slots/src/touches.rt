//! How many slots were visited.

ghost use Rattle.std.specs.Prelude.{◌≡◌, ◌+◌, ◌-◌, ◌^◌, ◌<◌};

/// The number of visits so far.
#[derive(Drop, Debug)]
pub struct Touches {
    /// One for each visit of a slot.
    pub count: u64,
}

impl Touches {
    /// One more visit. Each visit of a slot makes this call.
    pub(crate) fn visit(&mut self)
        requires { self.old.count < 2 ^ 64 - 1 }
        ensures { self.new.count ≡ self.old.count + 1 }
    {
        self.count += 1;
    }
}
