// The fields of CMD and PCTRL.
ghost use Rattle.std.specs.Prelude.{◌≡◌};
ghost use Rattle.entries.specs.Fields.{opcode_of, command_of, is_blit, is_polyline, is_line, draws, is_trigger, length_of, pattern_control_of};

// What a command is to do.
#[derive(Clone, Copy, PartialEq, Eq)]
pub enum Opcode {
    Noop,
    Blit,
    Line,
    // A line that starts at the last point.
    Polyline,
    // Any other number: no command.
    Unknown(u32),
}

impl From<u32> for Opcode {
    ghost from_gives = { λ number opcode. opcode ≡ opcode_of number };

    fn from(number: u32) -> Opcode {
        match number {
            0 => Opcode::Noop,
            1 => Opcode::Blit,
            2 => Opcode::Line,
            5 => Opcode::Polyline,
            other => Opcode::Unknown(other),
        }
    }
}

// CMD, its flags by the manual's names; from_virtual and to_virtual are source and destination.
#[derive(Clone, Copy)]
pub struct Command {
    pub opcode: Opcode,
    pub code: u8,
    pub solid: bool,
    pub trnsp: bool,
    pub stpl: bool,
    pub key: bool,
    pub nlst: bool,
    pub prst: bool,
    pub clip: bool,
    pub from_virtual: bool,
    pub to_virtual: bool,
    pub apat: bool,
}

// Kept: a function and no From, which is no plainer: `command_of(word)` says what `Command::from(word)` would.
pub fn command_of(word: u32) -> Command
    ensures { result ≡ command_of word }
{
    Command {
        opcode: Opcode::from(word / 268435456 % 16),
        code: (word / 16777216 % 16) as u8,
        solid: word / 8388608 % 2 == 1,
        trnsp: word / 4194304 % 2 == 1,
        stpl: word / 2097152 % 2 == 1,
        key: word / 1048576 % 2 == 1,
        nlst: word / 524288 % 2 == 1,
        prst: word / 262144 % 2 == 1,
        clip: word / 131072 % 2 == 1,
        from_virtual: word / 65536 % 2 == 1,
        to_virtual: word / 32768 % 2 == 1,
        apat: word / 16384 % 2 == 1,
    }
}

// The kinds of commands, by the opcode.
impl Command {
    pub fn is_blit(self) -> bool
        ensures { result ≡ is_blit self }
    {
        matches!(self.opcode, Opcode::Blit)
    }

    // Whether the command is a line that starts at the last point.
    pub fn is_polyline(self) -> bool
        ensures { result ≡ is_polyline self }
    {
        matches!(self.opcode, Opcode::Polyline)
    }

    pub fn is_line(self) -> bool
        ensures { result ≡ is_line self }
    {
        matches!(self.opcode, Opcode::Line | Opcode::Polyline)
    }

    // Whether the command draws: NOOP does not.
    pub fn draws(self) -> bool
        ensures { result ≡ draws self }
    {
        self.is_blit() | self.is_line()
    }
}

// The register whose writing triggers the command in CMD: XY1.
pub const TRIGGER: u32 = 12;

pub fn is_trigger(register: u32) -> bool
    ensures { result ≡ is_trigger register }
{
    register == TRIGGER
}

// PCTRL: the pattern's length in bits, how often each bit is repeated, and the place and repeat at which it starts.
#[derive(Clone, Copy)]
pub struct PatternControl {
    pub length: u32,
    pub scale: u32,
    pub place: u32,
    pub repeat: u32,
}

// The length of PCTRL's pattern, from 1 to 32.
pub fn pattern_length(word: u32) -> u32
    ensures { result ≡ length_of word }
{
    if word % 32 == 0 { 32 } else { word % 32 }
}

// Kept: a function and no From, as `command_of`.
pub fn pattern_control_of(word: u32) -> PatternControl
    ensures { result ≡ pattern_control_of word }
{
    PatternControl {
        length: pattern_length(word),
        scale: word / 32 % 8 + 1,
        place: word / 256 % 32,
        repeat: word / 8192 % 8,
    }
}
