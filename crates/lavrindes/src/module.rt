// Tables of full size, as a module's text fills them.
use house::Reading;
use tables::{Counts, Tables};

#[derive(Drop)]
pub struct Module {
    pub types: [u64; 16384],
    pub values: [u64; 16384],
    pub operations: [u32; 32768],
    pub attributes: [u32; 32768],
    pub blocks: [u32; 2048],
    pub regions: [u32; 1024],
    pub functions: [u32; 64],
    pub entries: [u64; 8192],
}

impl Module {
    pub fn new() -> Module {
        Module {
            types: [0; 16384],
            values: [0; 16384],
            operations: [0; 32768],
            attributes: [0; 32768],
            blocks: [0; 2048],
            regions: [0; 1024],
            functions: [0; 64],
            entries: [0; 8192],
        }
    }

    pub fn read(&mut self, text: &[u8]) -> Reading {
        module_text::read_module(
            text,
            &mut self.types,
            &mut self.values,
            &mut self.operations,
            &mut self.attributes,
            &mut self.blocks,
            &mut self.regions,
            &mut self.functions,
            &mut self.entries,
        )
    }

    pub fn tables(&self, counts: Counts) -> Tables<'_, '_, '_> {
        Tables::new(
            &self.types,
            &self.values,
            &self.operations,
            &self.attributes,
            &self.blocks,
            &self.regions,
            &self.functions,
            &self.entries,
            counts,
        )
    }
}
