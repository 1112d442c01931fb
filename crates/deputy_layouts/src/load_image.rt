//! The load image of a text: a block for each global, then one for each string.
ghost use Rattle.std.specs.Prelude.{◌≡◌, [], ◌∷◌, ◌++◌, ◌+◌, ◌*◌, ◌≤◌, IfOk, length};
ghost use Rattle.byte_memory.specs.Bytes.{low_bytes, zeros};
ghost use Rattle.deputy_types.specs.UnitLayout as spec;
ghost use Rattle.deputy_types.specs.UnitLayout.{IsAnswer, IsImage};

use c_tree::LimitKind;
use checked_tree::{ImageBlock, low_bits};
use deputy_types::{Declared, GlobalShape, Image, TypeRefusal, round_up_to};
use sd_base::Memory;
use sd_base::limits::IMAGE_END;
use sqlite_items::Items;
use std::alloc::Global;

/// The end of a block, where it is within the limit.
#[tactic(auto, unfolding(deputy_types::specs::UnitLayout::image_end))]
fn image_end(line: u32, base: u32, bytes: u64) -> Result<u32, TypeRefusal>
    ensures value { result ≡ spec.image_end line base bytes }
    ensures sum { IfOk result (λ end. end ≡ base + bytes) }
    ensures within { IfOk result (λ end. end ≤ 524288) }
{
    let end = base as u128 + bytes as u128;
    if end > IMAGE_END as u128 {
        return Err(TypeRefusal::Limit(line, LimitKind::Image));
    }
    Ok(end as u32)
}

/// So many zeros.
#[tactic(auto, unfolding(byte_memory::specs::Bytes::zeros))]
fn zero_bytes(alloc: Global, count: u32) -> Result<Items<u8>, Memory>
    ensures { IfOk result (λ bytes. bytes ≡ zeros count) }
{
    let mut bytes = Items::new(alloc);
    for _ in 0..count {
        bytes.push(0)?;
    }
    Ok(bytes)
}

/// The lowest bytes of a number, the lowest first.
#[tactic(auto, using(crate::proofs::WordBytes::next_byte), unfolding(byte_memory::specs::Bytes::low_bytes))]
fn word_bytes(alloc: Global, count: u32, word: u32) -> Result<Items<u8>, Memory>
    ensures { IfOk result (λ bytes. bytes ≡ low_bytes count word) }
{
    let mut bytes = Items::new(alloc);
    let mut rest = word;
    for _ in 0..count {
        bytes.push((rest % 256) as u8)?;
        rest /= 256;
    }
    Ok(bytes)
}

/// The base of the next block.
fn next_base(image: &Image) -> u32
    requires { IsImage image.now }
    ensures { result ≡ spec.next_base image.now }
{
    round_up_to(16, image.end)
}

/// What a global holds at first: its number in little endian, converted to its type, or so many zeros as it has bytes.
#[tactic(auto, unfolding(deputy_types::specs::UnitLayout::first_bytes))]
fn first_bytes(alloc: Global, global: &GlobalShape, size: u32) -> Result<Items<u8>, Memory>
    requires { size ≡ global.now.count * global.now.size }
    ensures { IfOk result (λ bytes. bytes ≡ spec.first_bytes global.now) }
{
    if global.value == 0 {
        return zero_bytes(alloc, size);
    }
    word_bytes(alloc, global.size, low_bits(32, i128::from(global.value)))
}

/// The bytes of a global.
fn global_size(global: &GlobalShape) -> u64
    ensures { result ≡ global.now.count * global.now.size }
{
    global.count as u64 * global.size as u64
}

/// The block of a global at this base.
fn global_block(
    alloc: Global,
    global: &GlobalShape,
    base: u32,
    size: u32,
) -> Result<ImageBlock, Memory>
    requires { size ≡ global.now.count * global.now.size }
    ensures { IfOk result (λ block. block ≡ spec.global_block global.now base) }
{
    Ok(ImageBlock {
        base,
        size,
        elem: global.elem,
        count: global.count,
        nullterm: false,
        bytes: first_bytes(alloc, global, size)?,
    })
}

/// With a block, which ends there.
fn with_block(mut image: Image, block: ImageBlock, end: u32) -> Result<Image, Memory>
    ensures { IfOk result (λ x. x ≡ spec.with_block image block end) }
{
    image.blocks.push(block)?;
    image.end = end;
    Ok(image)
}

/// With the block of a global, within the limit.
#[tactic(auto, unfolding(deputy_types::specs::UnitLayout::with_global_block))]
fn with_global_block(
    alloc: Global,
    image: Image,
    global: &GlobalShape,
) -> Result<Image, TypeRefusal>
    requires { IsImage image }
    ensures answer { IsAnswer (spec.with_global_block image global.now) result }
    ensures within { IfOk result IsImage }
{
    let base = next_base(&image);
    let end = image_end(global.line, base, global_size(global))?;
    let block = global_block(alloc, global, base, end - base)?;
    Ok(with_block(image, block, end)?)
}

/// With the blocks of globals, in turn.
fn with_global_blocks(
    alloc: Global,
    image: Image,
    globals: &[GlobalShape],
) -> Result<Image, TypeRefusal>
    requires { IsImage image }
    ensures answer { IsAnswer (spec.with_global_blocks image globals.now) result }
    ensures within { IfOk result IsImage }
{
    let mut image = image;
    for global in globals {
        image = with_global_block(alloc, image, global)?;
    }
    Ok(image)
}

/// The bytes of a string, and a 0 behind them.
fn ended_text(alloc: Global, text: &[u8]) -> Result<Items<u8>, Memory>
    ensures { IfOk result (λ bytes. bytes ≡ text.now ++ 0 ∷ []) }
{
    let mut bytes = Items::from_slice(alloc, text)?;
    bytes.push(0)?;
    Ok(bytes)
}

/// The block of a string at this base.
fn string_block(alloc: Global, text: &[u8], base: u32, size: u32) -> Result<ImageBlock, Memory>
    requires { size ≡ length text.now + 1 }
    ensures { IfOk result (λ block. block ≡ spec.string_block text.now base) }
{
    Ok(ImageBlock {
        base,
        size,
        elem: 0,
        count: size,
        nullterm: true,
        bytes: ended_text(alloc, text)?,
    })
}

/// With the block of a string in a function on this line, within the limit.
#[tactic(auto, unfolding(deputy_types::specs::UnitLayout::with_string_block))]
fn with_string_block(
    alloc: Global,
    image: Image,
    line: u32,
    text: &[u8],
) -> Result<Image, TypeRefusal>
    requires { IsImage image }
    ensures answer { IsAnswer (spec.with_string_block image line text.now) result }
    ensures within { IfOk result IsImage }
{
    let base = next_base(&image);
    let end = image_end(line, base, text.len() as u64 + 1)?;
    let block = string_block(alloc, text, base, end - base)?;
    Ok(with_block(image, block, end)?)
}

/// With the blocks of strings, in turn, each with the line of its function.
fn with_string_blocks(
    alloc: Global,
    image: Image,
    lines: &[u32],
    texts: &[Items<u8>],
) -> Result<Image, TypeRefusal>
    requires { IsImage image }
    ensures answer { IsAnswer (spec.with_string_blocks image lines.now texts.now) result }
    ensures within { IfOk result IsImage }
{
    let mut image = image;
    let mut texts = texts;
    for line in lines {
        match texts {
            [] => return Ok(image),
            [text, more @ ..] => {
                image = with_string_block(alloc, image, *line, text.as_slice())?;
                texts = more;
            }
        }
    }
    Ok(image)
}

/// An image without blocks: the bytes 0 to 15 are never granted.
fn empty_image(alloc: Global) -> Image
    ensures value { result ≡ spec.empty_image }
    ensures within { IsImage result }
{
    Image {
        blocks: Items::new(alloc),
        end: 16,
    }
}

/// The load image of a text.
#[tactic(auto, unfolding(deputy_types::specs::UnitLayout::image_of))]
pub(crate) fn image_of(
    alloc: Global,
    declared: &Declared,
    strings: &[Items<u8>],
) -> Result<Image, TypeRefusal>
    ensures { IsAnswer (spec.image_of declared.now strings.now) result }
{
    let image = with_global_blocks(alloc, empty_image(alloc), declared.globals.as_slice())?;
    with_string_blocks(alloc, image, declared.lines.as_slice(), strings)
}
