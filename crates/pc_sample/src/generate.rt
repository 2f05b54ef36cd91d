//! The source that belongs to a number.
ghost use Rattle.std.specs.Prelude.{◌≡◌, ◌≤◌, ◌++◌, IfOk, OnOk, string_bytes, length};
ghost use Rattle.pc_sample.specs.SampleText.{block_count, block_line, blocks_text, difference_line, gather_line, head_text, sample_text};

use pc_word::OutOfMemory;
use std::alloc::{AllocError, Global};

/// The bytes that a sample has at most.
pub const MOST_SAMPLE: usize = 2_500;

/// Why a sample was not made.
pub type SampleError = OutOfMemory;

/// The source that belongs to a number: a program of loops over two arrays.
pub fn sample(alloc: Global, number: u32) -> Result<Vec<u8>, SampleError>
    ensures text { IfOk result (λ text. text.items ≡ sample_text number) }
    ensures short { IfOk result (λ text. length text.items ≤ MOST_SAMPLE) }
{
    let text = source(alloc, number)?;
    Ok(text.into_bytes())
}

/// The source, as text.
fn source(alloc: Global, number: u32) -> Result<String, AllocError>
    ensures { IfOk result (λ text. string_bytes text ≡ sample_text number) }
{
    let mut text = head(alloc, number)?;
    push_blocks(&mut text, number)?;
    text.push_str("}\n")?;
    Ok(text)
}

/// The beginning of a source.
fn head(alloc: Global, number: u32) -> Result<String, AllocError>
    ensures { IfOk result (λ text. string_bytes text ≡ head_text number) }
{
    let factor = number % 97 + 1;
    let mask = number % 61;
    let mut text = format!(in alloc; "int main(void){{\nint i;int s;int a[64];int b[64];\n")?;
    writeln!(text, "for(i=0;i<64;i++){{a[i]=i*{factor};b[i]=i^{mask};}}")?;
    Ok(text)
}

/// Appends the blocks of a source to a text.
fn push_blocks(text: &mut String, number: u32) -> Result<(), AllocError>
    ensures { OnOk result (string_bytes text.new ≡ string_bytes text.old ++ blocks_text number (block_count number)) }
{
    let blocks = number % 40 + 1;
    for block in 0..blocks {
        let kind = (u64::from(number) + u64::from(block)) % 3;
        push_block(text, kind, block % 64)?;
    }
    Ok(())
}

/// Appends the line of a block to a text.
fn push_block(text: &mut String, kind: u64, place: u32) -> Result<(), AllocError>
    ensures { OnOk result (string_bytes text.new ≡ string_bytes text.old ++ block_line kind place) }
{
    match kind {
        0 => text.push_str("s=0;for(i=0;i<64;i++)s=s+a[i]*b[i];print(s);\n"),
        1 => push_difference(text, place),
        _ => push_gather(text, place),
    }
}

/// Appends the block of differences of neighbours to a text.
fn push_difference(text: &mut String, place: u32) -> Result<(), AllocError>
    ensures { OnOk result (string_bytes text.new ≡ string_bytes text.old ++ difference_line place) }
{
    writeln!(text, "for(i=0;i<63;i++)a[i]=a[i+1]-b[i];print(a[{place}]);")
}

/// Appends the block of sums into every second element to a text.
fn push_gather(text: &mut String, place: u32) -> Result<(), AllocError>
    ensures { OnOk result (string_bytes text.new ≡ string_bytes text.old ++ gather_line place) }
{
    writeln!(
        text,
        "for(i=0;i<32;i++)b[2*i]=b[2*i+1]+a[i];print(b[{place}]);"
    )
}
