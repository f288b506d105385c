//! What a row of texts tries.

use crate::{data_type, document, extension, field, fill, group, line, node, shard, version_2};
use std::alloc::{AllocError, Global};

/// How the texts of a row are read and written.
#[derive(Clone, Copy)]
pub enum TextKind {
    /// How a document is read and written.
    Document,
    /// The pretty text of a document of either version.
    Pretty,
    /// How each line is read and written as a document of either version.
    Node,
    /// The same as the document of a group.
    Group,
    /// The same as an extension, an additional field and a fill value.
    Extension,
    Field,
    Fill,
    /// The same as a codec and a data type of version 2.
    CodecV2,
    DataTypeV2,
    /// What a document of an array of version 2 is translated to, and why it is not opened.
    Translation,
    OpeningV2,
    /// The data type that each line names, and its fill value there.
    DataType,
    /// What each line says as a key line, and as a command line.
    KeyLine,
    CommandLine,
    /// How chunks keep inner chunks, and regions of sharded chunks.
    Shard,
    Regions,
}

impl TextKind {
    /// The kind that a word names.
    pub fn of_word(word: &str) -> Option<TextKind> {
        match word {
            "pretty" => Some(TextKind::Pretty),
            "node" => Some(TextKind::Node),
            "data_type" => Some(TextKind::DataType),
            "group" => Some(TextKind::Group),
            "extension" => Some(TextKind::Extension),
            "field" => Some(TextKind::Field),
            "fill" => Some(TextKind::Fill),
            "codec_v2" => Some(TextKind::CodecV2),
            "data_type_v2" => Some(TextKind::DataTypeV2),
            "translation" => Some(TextKind::Translation),
            "opening_v2" => Some(TextKind::OpeningV2),
            "key_line" => Some(TextKind::KeyLine),
            "command_line" => Some(TextKind::CommandLine),
            "shard" => Some(TextKind::Shard),
            "regions" => Some(TextKind::Regions),
            "document" => Some(TextKind::Document),
            _ => None,
        }
    }

    // What a text is by this kind.
    fn line_of(self, alloc: Global, text: &str) -> Result<String, AllocError> {
        match self {
            TextKind::Document => document::line_of(alloc, text),
            TextKind::Pretty => node::pretty_text(alloc, text),
            TextKind::Node => node::line_of(alloc, text),
            TextKind::DataType => data_type::line_of(alloc, text),
            TextKind::Group => group::line_of(alloc, text),
            TextKind::Extension => extension::line_of(alloc, text),
            TextKind::Field => field::line_of(alloc, text),
            TextKind::Fill => fill::line_of(alloc, text),
            TextKind::CodecV2 => version_2::codec_line(alloc, text),
            TextKind::DataTypeV2 => version_2::data_type_line(alloc, text),
            TextKind::Translation => version_2::translation_line(alloc, text),
            TextKind::OpeningV2 => version_2::opening_line(alloc, text),
            TextKind::KeyLine => line::entry_of(alloc, text),
            TextKind::CommandLine => line::command_of(alloc, text),
            TextKind::Shard => shard::chunk_line(alloc, text),
            TextKind::Regions => shard::region_lines(alloc, text),
        }
    }

    fn try_line(self, alloc: Global, text: &str, out: &mut Vec<u8>) -> Result<(), AllocError> {
        let line = self.line_of(alloc, text)?;
        out.extend_from_slice(line.as_bytes())?;
        out.push(b'\n')?;
        Ok(())
    }

    // Tries each line of a text.
    fn try_each(self, alloc: Global, text: &str, out: &mut Vec<u8>) -> Result<(), AllocError> {
        for line in text.split_terminator('\n') {
            let name = format!(in alloc; "> {line}\n")?;
            out.extend_from_slice(name.as_bytes())?;
            self.try_line(alloc, line, out)?;
        }
        Ok(())
    }

    /// Tries a text, and appends what comes of it.
    pub fn try_text(self, alloc: Global, text: &str, out: &mut Vec<u8>) -> Result<(), AllocError> {
        match self {
            TextKind::Document | TextKind::Pretty | TextKind::Regions => {
                self.try_line(alloc, text, out)
            }
            _ => self.try_each(alloc, text, out),
        }
    }
}
