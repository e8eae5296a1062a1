// A room that is lent, written byte after byte.

// A room, and the place in it where the next byte goes. What has no room is not written: a place beyond the room is as good as its end.
#[derive(Drop)]
pub struct Writer<'a> {
    pub room: &'a mut [u8],
    pub at: usize,
}

impl<'a> Writer<'a> {
    ghost use Rattle.std.specs.Prelude.{[], ◌∷◌};
    ghost use Rattle.common.specs.Writing.{Written};

    // Nothing is written; but a place beyond the room becomes its end, as behind whatever is written.
    pub fn settle(&mut self)
        ensures { Written self.old [] self.new }
    {
        self.at = self.at.min(self.room.len());
    }

    // One byte.
    pub fn put(&mut self, b: u8)
        ensures { Written self.old (b ∷ []) self.new }
    {
        if self.at < self.room.len() {
            self.room[self.at] = b;
            self.at += 1;
        } else {
            self.at = self.room.len();
        }
    }

    // Bytes.
    pub fn put_all(&mut self, bytes: &[u8])
        ensures { Written self.old bytes.now self.new }
    {
        self.settle();
        for b in bytes {
            self.put(*b);
        }
    }
}
