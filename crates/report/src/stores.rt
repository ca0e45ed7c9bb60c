//! The stores that an engine is lent, and the calls that the programs make over them.
use heap::HEAP_WORDS;
use heapops::Counts;
use host::{Given, Images, Memory, Refusal};
use image::{CODE_BYTES, IMAGES};
use run::Ran;
use stacks::STACK_WORDS;
use texts::{OUTPUT_LIMIT, TEXT_LIMIT};

// Large: a program makes it once, and passes it by reference.
#[derive(Drop)]
pub struct Stores {
    pub code: [u8; CODE_BYTES],
    pub places: [u16; CODE_BYTES],
    pub rows: [u16; CODE_BYTES],
    pub starts: [u16; IMAGES],
    pub stacks: [u64; STACK_WORDS],
    pub heap: [u64; HEAP_WORDS],
    pub text: [u8; TEXT_LIMIT],
    pub output: [u8; OUTPUT_LIMIT],
}

impl Stores {
    // An engine is lent memory of any contents; here each word has the byte b twice.
    pub fn filled(b: u8) -> Stores {
        let pair = u16::from_be_bytes([b, b]);
        Stores {
            code: [b; CODE_BYTES],
            places: [pair; CODE_BYTES],
            rows: [pair; CODE_BYTES],
            starts: [pair; IMAGES],
            stacks: [u64::from(pair); STACK_WORDS],
            heap: [u64::from(pair); HEAP_WORDS],
            text: [b; TEXT_LIMIT],
            output: [b; OUTPUT_LIMIT],
        }
    }

    pub fn images(&self) -> Images<'_> {
        Images {
            code: &self.code,
            places: &self.places,
            rows: &self.rows,
            starts: &self.starts,
        }
    }

    pub fn memory(&self) -> Memory<'_> {
        Memory {
            stacks: &self.stacks,
            heap: &self.heap,
            text: &self.text,
            output: &self.output,
        }
    }

    pub fn clear(&mut self) -> Result<Counts, Refusal> {
        engine::clear(
            &mut self.code,
            &mut self.places,
            &mut self.rows,
            &mut self.starts,
            &mut self.stacks,
            &mut self.heap,
            &mut self.text,
            &mut self.output,
        )
    }

    pub fn load(&mut self, counts: Counts, image: &[u8]) -> Result<(usize, Counts), Refusal> {
        let memory = Memory {
            stacks: &self.stacks,
            heap: &self.heap,
            text: &self.text,
            output: &self.output,
        };
        engine::images::load(
            &mut self.code,
            &mut self.places,
            &mut self.rows,
            &mut self.starts,
            memory,
            counts,
            image,
        )
    }

    pub fn run(&mut self, counts: Counts, image: usize) -> Result<Ran, Refusal> {
        let images = Images {
            code: &self.code,
            places: &self.places,
            rows: &self.rows,
            starts: &self.starts,
        };
        engine::runs::run(
            images,
            &mut self.stacks,
            &mut self.heap,
            &mut self.text,
            &mut self.output,
            counts,
            image,
        )
    }

    pub fn text_of(
        &self,
        counts: Counts,
        given: Given<'_>,
        buffer: &mut [u8],
    ) -> Result<usize, Refusal> {
        buffers::text_of(self.images(), self.memory(), counts, given, buffer)
    }

    pub fn drain(&self, counts: Counts, buffer: &mut [u8]) -> Result<(usize, Counts), Refusal> {
        buffers::drain(self.images(), self.memory(), counts, buffer)
    }
}
