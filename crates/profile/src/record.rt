// The records: 32 bytes each. A `Record` is known to be there, so that its methods ask nothing more than where in it to read.
ghost use Rattle.std.specs.Prelude.{◌≡◌, ◌<◌, ◌≤◌};
ghost use Rattle.profile.specs.Profile.{records, byte_at, half_at, double_at, kind_count};

// How many records a profile has. A record is taken by its number, as the definitions count records: an iterator of slices would have to be tied to that.
pub fn count(profile: &[u8]) -> usize
    ensures { result ≡ records profile.now }
{
    profile.len() / 32
}

// How many of them are of the kind.
pub fn count_kind(profile: &[u8], kind: u8) -> usize
    ensures { result ≡ kind_count profile.now kind }
{
    (0..count(profile))
        .filter(|k| Record::at(profile, *k).kind() == kind)
        .count()
}

// Record k of a profile.
#[derive(Clone, Copy)]
pub struct Record<'a> {
    pub profile: &'a [u8],
    pub k: usize,
    ghost there: { k < records profile.now },
}

impl<'a> Record<'a> {
    pub fn at(profile: &'a [u8], k: usize) -> Record<'a>
        requires { k < records profile.now }
        ensures { (result.profile.now ≡ profile.now) × (result.k ≡ k) }
    {
        Record { profile, k }
    }

    pub fn byte(self, o: usize) -> u8
        requires { o < 32 }
        ensures { result ≡ byte_at self.entry.profile.now self.entry.k o }
    {
        self.profile[self.k * 32 + o]
    }

    pub fn half(self, o: usize) -> u16
        requires { o ≤ 30 }
        ensures { result ≡ half_at self.entry.profile.now self.entry.k o }
    {
        base::read_u16(self.profile, self.k * 32 + o)
    }

    pub fn double(self, o: usize) -> f64
        requires { o ≤ 24 }
        ensures { result ≡ double_at self.entry.profile.now self.entry.k o }
    {
        float::read_f64(self.profile, self.k * 32 + o)
    }

    // A number and no enum: kinds are compared by their order, and until number 2 is passed the byte may be no kind.
    pub fn kind(self) -> u8
        ensures { result ≡ byte_at self.entry.profile.now self.entry.k 0 }
    {
        self.byte(0)
    }

    // The bank that the record belongs to, or the driver.
    pub fn part(self) -> u8
        ensures { result ≡ byte_at self.entry.profile.now self.entry.k 1 }
    {
        self.byte(1)
    }

    // The number of a fader or an encoder, or the kind of a button.
    pub fn number(self) -> u8
        ensures { result ≡ byte_at self.entry.profile.now self.entry.k 2 }
    {
        self.byte(2)
    }
}
