// The numbers that the shader gets for a level 2 block: each exactly its code divided by 4,096.
#![tactic(auto)]

ghost use Rattle.std.specs.Prelude.{◌≡◌, true, false, map, ◌<◌, ℤ, IfOk, IfErr};
ghost use Rattle.std.specs.Int.Signed.{mag};
ghost use Rattle.std.specs.Float.{binary32};
ghost use Rattle.std.specs.Float.Ieee.{to_bits, of_int};
ghost use Rattle.refusals.specs.declared.Refusal.TheVariants.{NotValid};
ghost use Rattle.record.specs.Level.{values_of};
ghost use Rattle.singles.specs.Singles.{single_bits};
ghost use Rattle.shader.specs.Shader.{convertible, conversion_result, conversion_bits, bits_in};

use record::Block;
use refusals::Refusal;

// The seven numbers, in the order of the block's fields.
#[derive(Clone, Copy, Default)]
pub struct Numbers {
    pub target_max_pq: f32,
    pub trim_slope: f32,
    pub trim_offset: f32,
    pub trim_power: f32,
    pub trim_chroma_weight: f32,
    pub trim_saturation_gain: f32,
    pub ms_weight: f32,
}

// 0 or the number of the refusal, and the numbers. (01: the seven fields are returned by value with the conversion answer, and on a refusal are
// seven plus zeros.)
#[derive(Clone, Copy)]
pub struct Shader {
    pub result: u8,
    pub numbers: Numbers,
}

// A code as a float, divided by 4,096. The division by a power of two is exact at each code of 12 bits, and of 13 with its sign.
fn single(code: f32) -> f32
    ensures { (z : ℤ) → mag z < 4096 → code ≡ of_int binary32 z → to_bits binary32 result ≡ single_bits z }
{
    code / 4096.0
}

// The numbers of a level 2 block in range; any other block has none.
fn numbers_of(block: Block) -> Result<Numbers, Refusal>
    ensures accepted { IfOk result (λ n. (convertible block ≡ true) × (bits_in n ≡ map single_bits (values_of block))) }
    ensures refused { IfErr result (λ e. (convertible block ≡ false) × (e ≡ NotValid)) }
{
    match block {
        Block::Level2 {
            target_max_pq,
            trim_slope,
            trim_offset,
            trim_power,
            trim_chroma_weight,
            trim_saturation_gain,
            ms_weight,
        } if record::in_range(block) => Ok(Numbers {
            target_max_pq: single(f32::from(target_max_pq)),
            trim_slope: single(f32::from(trim_slope)),
            trim_offset: single(f32::from(trim_offset)),
            trim_power: single(f32::from(trim_power)),
            trim_chroma_weight: single(f32::from(trim_chroma_weight)),
            trim_saturation_gain: single(f32::from(trim_saturation_gain)),
            ms_weight: single(f32::from(ms_weight)),
        }),
        _ => Err(Refusal::NotValid),
    }
}

// The numbers of a block: any block gets an answer.
pub fn shader_numbers(block: Block) -> Shader
    ensures { (result.result ≡ conversion_result block) × (bits_in result.numbers ≡ conversion_bits block) }
{
    match numbers_of(block) {
        Ok(numbers) => Shader { result: 0, numbers },
        Err(refusal) => Shader {
            result: refusal.number(),
            numbers: Numbers::default(),
        },
    }
}
