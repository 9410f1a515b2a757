// The rule of a fracture: below which width a shot is a sliver, and what a nanometre of sliver weighs.
#![tactic(auto)]

ghost use Rattle.std.specs.Prelude.{◌≡◌, not, true, ◌≤◌, min};
ghost use Rattle.sum.specs.Sum.{only};
ghost use Rattle.rule.specs.Rules.{limit, made_told, rule_told, preset_told};
ghost use Rattle.rule.specs.Charge.{longer, sliver_of, spared, charge_of};

use refusal::Refusal;

// A shot whose shorter side is below the threshold (in nm) is a sliver; each exposed nm of its two longer sides weighs so many thousandths of a shot.
#[derive(Clone, Copy, PartialEq, Eq)]
pub struct Rule {
    pub threshold: u32,
    pub weight: u32,
}

// docs/SCOPE.md, "Rules by preset": weight times threshold is 1,000 in every row.
pub const PRESETS: [Rule; 4] = [
    Rule {
        threshold: 25,
        weight: 40,
    },
    Rule {
        threshold: 10,
        weight: 100,
    },
    Rule {
        threshold: 5,
        weight: 200,
    },
    Rule {
        threshold: 50,
        weight: 20,
    },
];

// A length where it counts, else 0. (`shares::growing` has it in 16 bits: a type parameter would have to say which of its values is 0.)
fn counted(counts: bool, length: u32) -> u32
    ensures { (result ≡ only counts length) × (result ≤ length) }
{
    if counts { length } else { 0 }
}

// The exposed length of the two longer sides of a shot; of a square the greater of both.
fn longer(width: u32, height: u32, upright: u32, level: u32) -> u32
    ensures { result ≡ longer width height upright level }
{
    if width < height {
        return upright;
    }
    if height < width {
        return level;
    }
    upright.max(level)
}

impl Rule {
    // In nm.
    pub const MAX_THRESHOLD: u32 = 1000;

    // In thousandths of a shot for each nm.
    pub const MAX_WEIGHT: u32 = 1000;

    // The row that a fracture without a rule goes by.
    pub const DEFAULT_PRESET: u32 = 1;

    // The rule of these two numbers; refused where one of them is above its limit (1).
    pub fn new(threshold: u32, weight: u32) -> Result<Rule, Refusal>
        ensures settled { made_told result ≡ rule_told threshold weight }
    {
        if Rule::MAX_THRESHOLD < threshold {
            return Err(Refusal::Rule);
        }
        if Rule::MAX_WEIGHT < weight {
            return Err(Refusal::Rule);
        }
        Ok(Rule { threshold, weight })
    }

    // The row of the preset table with this number; refused where there is no such row (15).
    pub fn preset(number: u32) -> Result<Rule, Refusal>
        ensures settled { made_told result ≡ preset_told number }
    {
        PRESETS.get(number as usize).copied().ok_or(Refusal::Preset)
    }

    // The sliver length of a shot of this width and height, whose left and right sides are exposed over `upright` nm together and its
    // bottom and top over `level` nm: where its shorter extent is below the threshold, the longer sides count, and only those. What a
    // sliver costs is reckoned in this crate and nowhere else.
    pub fn sliver(self, width: u32, height: u32, upright: u32, level: u32) -> u32
        ensures { result ≡ sliver_of self width height upright level }
    {
        let threshold = self.threshold;
        counted(
            width.min(height) < threshold,
            longer(width, height, upright, level),
        )
    }

    // Whether two opposite sides that lie so far apart never count, whatever is exposed: then they need not be measured.
    pub fn spares(self, extent: u32) -> bool
        ensures { result ≡ spared self extent }
    {
        let threshold = self.threshold;
        threshold <= extent
    }

    // The exposed length of two opposite sides that lie so far apart, and 0 where the rule spares them.
    pub fn narrow(self, extent: u32, length: u32) -> u32
        ensures { result ≡ only (not (spared self extent)) length }
    {
        let threshold = self.threshold;
        counted(extent < threshold, length)
    }

    // The sliver length once more, for many shots of one height: `tall` says whether the rule spares the bottom and top of each, and
    // `upright` is 0 where it spares left and right (`narrow`).
    pub fn sliver_of_height(
        self,
        tall: bool,
        width: u32,
        height: u32,
        upright: u32,
        level: u32,
    ) -> u32
        requires tall_value { tall ≡ spared self height }
        requires upright_value { spared self width ≡ true → upright ≡ 0 }
        ensures { result ≡ sliver_of self width height upright level }
    {
        if tall {
            upright
        } else {
            longer(width, height, upright, level)
        }
    }

    // What a shot of this sliver length costs, in thousandths of a shot.
    pub fn charge(self, sliver: u32) -> u32
        requires { (sliver ≤ 262140) × (self.weight ≤ limit) }
        ensures { result ≡ charge_of self sliver }
    {
        1000 + self.weight * sliver
    }
}
