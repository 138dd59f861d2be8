// The register file.
ghost use Rattle.std.specs.Prelude.{◌≡◌};
ghost use Rattle.registers.specs.Registers.{fresh_registers, written_of, registers_legal};

use entries::legal_data;

// The registers in the order of their numbers.
#[derive(Clone, Copy)]
pub struct Registers {
    pub cmd: u32,
    pub fore: u32,
    pub back: u32,
    pub mask: u32,
    pub key: u32,
    pub lpat: u32,
    pub pctrl: u32,
    pub clptl: u32,
    pub clpbr: u32,
    pub xy0: u32,
    pub xy2: u32,
    pub xy3: u32,
    pub xy1: u32,
}

impl Registers {
    pub fn fresh() -> Registers
        ensures { result ≡ fresh_registers }
    {
        Registers {
            cmd: 0,
            fore: 0,
            back: 0,
            mask: 255,
            key: 0,
            lpat: 0,
            pctrl: 0,
            clptl: 0,
            clpbr: 0,
            xy0: 0,
            xy2: 0,
            xy3: 0,
            xy1: 0,
        }
    }

    // With a word in one register; there are none from number 13 on.
    // Kept: the register by its number, since every number is answered (`written_of`).
    #[tactic(auto, unfolding(crate::specs::Registers::written_of))]
    pub fn written(self, register: u32, word: u32) -> Registers
        ensures { result ≡ written_of self register word }
    {
        let mut g = self;
        match register {
            0 => g.cmd = word,
            1 => g.fore = word,
            2 => g.back = word,
            3 => g.mask = word,
            4 => g.key = word,
            5 => g.lpat = word,
            6 => g.pctrl = word,
            7 => g.clptl = word,
            8 => g.clpbr = word,
            9 => g.xy0 = word,
            10 => g.xy2 = word,
            11 => g.xy3 = word,
            12 => g.xy1 = word,
            _ => {}
        }
        g
    }

    // Whether every register holds a legal word.
    #[tactic(auto, unfolding(crate::specs::Registers::registers_legal))]
    pub fn legal(self) -> bool
        ensures { result ≡ registers_legal self }
    {
        legal_data(0, self.cmd)
            & legal_data(1, self.fore)
            & legal_data(2, self.back)
            & legal_data(3, self.mask)
            & legal_data(4, self.key)
            & legal_data(5, self.lpat)
            & legal_data(6, self.pctrl)
            & legal_data(7, self.clptl)
            & legal_data(8, self.clpbr)
            & legal_data(9, self.xy0)
            & legal_data(10, self.xy2)
            & legal_data(11, self.xy3)
            & legal_data(12, self.xy1)
    }
}
