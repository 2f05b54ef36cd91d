//! Samples against texts that were written from the description of samples.

use pc_sample::{MOST_SAMPLE, sample};
use std::alloc::Global;
use std::test::Fail;

/// The sample of 0.
const FIRST: &[u8] = b"\
int main(void){\n\
int i;int s;int a[64];int b[64];\n\
for(i=0;i<64;i++){a[i]=i*1;b[i]=i^0;}\n\
s=0;for(i=0;i<64;i++)s=s+a[i]*b[i];print(s);\n\
}\n\
";

/// The sample of 7.
const SEVENTH: &[u8] = b"\
int main(void){\n\
int i;int s;int a[64];int b[64];\n\
for(i=0;i<64;i++){a[i]=i*8;b[i]=i^7;}\n\
for(i=0;i<63;i++)a[i]=a[i+1]-b[i];print(a[0]);\n\
for(i=0;i<32;i++)b[2*i]=b[2*i+1]+a[i];print(b[1]);\n\
s=0;for(i=0;i<64;i++)s=s+a[i]*b[i];print(s);\n\
for(i=0;i<63;i++)a[i]=a[i+1]-b[i];print(a[3]);\n\
for(i=0;i<32;i++)b[2*i]=b[2*i+1]+a[i];print(b[4]);\n\
s=0;for(i=0;i<64;i++)s=s+a[i]*b[i];print(s);\n\
for(i=0;i<63;i++)a[i]=a[i+1]-b[i];print(a[6]);\n\
for(i=0;i<32;i++)b[2*i]=b[2*i+1]+a[i];print(b[7]);\n\
}\n\
";

/// The sample of 119, which has as many blocks as there may be.
const LONGEST: &[u8] = b"\
int main(void){\n\
int i;int s;int a[64];int b[64];\n\
for(i=0;i<64;i++){a[i]=i*23;b[i]=i^58;}\n\
for(i=0;i<32;i++)b[2*i]=b[2*i+1]+a[i];print(b[0]);\n\
s=0;for(i=0;i<64;i++)s=s+a[i]*b[i];print(s);\n\
for(i=0;i<63;i++)a[i]=a[i+1]-b[i];print(a[2]);\n\
for(i=0;i<32;i++)b[2*i]=b[2*i+1]+a[i];print(b[3]);\n\
s=0;for(i=0;i<64;i++)s=s+a[i]*b[i];print(s);\n\
for(i=0;i<63;i++)a[i]=a[i+1]-b[i];print(a[5]);\n\
for(i=0;i<32;i++)b[2*i]=b[2*i+1]+a[i];print(b[6]);\n\
s=0;for(i=0;i<64;i++)s=s+a[i]*b[i];print(s);\n\
for(i=0;i<63;i++)a[i]=a[i+1]-b[i];print(a[8]);\n\
for(i=0;i<32;i++)b[2*i]=b[2*i+1]+a[i];print(b[9]);\n\
s=0;for(i=0;i<64;i++)s=s+a[i]*b[i];print(s);\n\
for(i=0;i<63;i++)a[i]=a[i+1]-b[i];print(a[11]);\n\
for(i=0;i<32;i++)b[2*i]=b[2*i+1]+a[i];print(b[12]);\n\
s=0;for(i=0;i<64;i++)s=s+a[i]*b[i];print(s);\n\
for(i=0;i<63;i++)a[i]=a[i+1]-b[i];print(a[14]);\n\
for(i=0;i<32;i++)b[2*i]=b[2*i+1]+a[i];print(b[15]);\n\
s=0;for(i=0;i<64;i++)s=s+a[i]*b[i];print(s);\n\
for(i=0;i<63;i++)a[i]=a[i+1]-b[i];print(a[17]);\n\
for(i=0;i<32;i++)b[2*i]=b[2*i+1]+a[i];print(b[18]);\n\
s=0;for(i=0;i<64;i++)s=s+a[i]*b[i];print(s);\n\
for(i=0;i<63;i++)a[i]=a[i+1]-b[i];print(a[20]);\n\
for(i=0;i<32;i++)b[2*i]=b[2*i+1]+a[i];print(b[21]);\n\
s=0;for(i=0;i<64;i++)s=s+a[i]*b[i];print(s);\n\
for(i=0;i<63;i++)a[i]=a[i+1]-b[i];print(a[23]);\n\
for(i=0;i<32;i++)b[2*i]=b[2*i+1]+a[i];print(b[24]);\n\
s=0;for(i=0;i<64;i++)s=s+a[i]*b[i];print(s);\n\
for(i=0;i<63;i++)a[i]=a[i+1]-b[i];print(a[26]);\n\
for(i=0;i<32;i++)b[2*i]=b[2*i+1]+a[i];print(b[27]);\n\
s=0;for(i=0;i<64;i++)s=s+a[i]*b[i];print(s);\n\
for(i=0;i<63;i++)a[i]=a[i+1]-b[i];print(a[29]);\n\
for(i=0;i<32;i++)b[2*i]=b[2*i+1]+a[i];print(b[30]);\n\
s=0;for(i=0;i<64;i++)s=s+a[i]*b[i];print(s);\n\
for(i=0;i<63;i++)a[i]=a[i+1]-b[i];print(a[32]);\n\
for(i=0;i<32;i++)b[2*i]=b[2*i+1]+a[i];print(b[33]);\n\
s=0;for(i=0;i<64;i++)s=s+a[i]*b[i];print(s);\n\
for(i=0;i<63;i++)a[i]=a[i+1]-b[i];print(a[35]);\n\
for(i=0;i<32;i++)b[2*i]=b[2*i+1]+a[i];print(b[36]);\n\
s=0;for(i=0;i<64;i++)s=s+a[i]*b[i];print(s);\n\
for(i=0;i<63;i++)a[i]=a[i+1]-b[i];print(a[38]);\n\
for(i=0;i<32;i++)b[2*i]=b[2*i+1]+a[i];print(b[39]);\n\
}\n\
";

/// Whether the sample of a number is this text.
fn is_sample(alloc: Global, number: u32, text: &[u8]) -> Result<bool, Fail> {
    let made = sample(alloc, number)?;
    Ok(made.as_slice() == text)
}

#[test]
fn writes_the_sources_as_described(rt: HostRuntime) -> Result<(), Fail> {
    let alloc = rt.alloc();
    assert!(rt; is_sample(alloc, 0, FIRST)?);
    assert!(rt; is_sample(alloc, 7, SEVENTH)?);
    assert!(rt; is_sample(alloc, 119, LONGEST)?);
    Ok(())
}

#[test]
fn does_not_wrap(rt: HostRuntime) -> Result<(), Fail> {
    let made = sample(rt.alloc(), u32::MAX)?;
    let text = made.as_slice();
    assert!(rt; text.len() <= MOST_SAMPLE);
    assert!(rt;
        text.ends_with(
            b"for(i=0;i<32;i++)b[2*i]=b[2*i+1]+a[i];print(b[14]);\ns=0;for(i=0;i<64;i++)s=s+a[i]*b[i];print(s);\n}\n"
        )
    );
    Ok(())
}
