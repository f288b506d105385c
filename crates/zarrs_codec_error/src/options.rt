//! Options of codecs, of each call and of the metadata that they write.

ghost use Rattle.std.specs.Prelude.{◌≡◌};
ghost use Rattle.zarrs_codec_error.specs.Options.{default_options, default_metadata_options};

/// Options of the calls of codecs.
#[derive(Clone, Copy, Debug)]
pub struct CodecOptions {
    validate_checksums: bool,
    store_empty_chunks: bool,
    concurrent_target: usize,
    chunk_concurrent_minimum: usize,
    experimental_partial_encoding: bool,
}

impl Default for CodecOptions {
    ghost is_default = { λ options. options ≡ default_options };

    fn default() -> Self {
        CodecOptions {
            validate_checksums: true,
            store_empty_chunks: false,
            concurrent_target: 1,
            chunk_concurrent_minimum: 4,
            experimental_partial_encoding: false,
        }
    }
}

impl CodecOptions {
    /// Whether a digest is tested where a value is decoded. True by default.
    pub fn validate_checksums(&self) -> bool
        ensures { result ≡ self.now.validate_checksums }
    {
        self.validate_checksums
    }

    /// Sets whether digests are tested.
    pub fn set_validate_checksums(&mut self, value: bool) -> &mut Self
        ensures same { result.ghost_name ≡ self.entry.ghost_name }
        ensures value { result.now ≡ record self.old { validate_checksums = value } }
    {
        self.validate_checksums = value;
        self
    }

    /// These options with another `validate_checksums`.
    pub fn with_validate_checksums(self, value: bool) -> Self
        ensures { result ≡ record self { validate_checksums = value } }
    {
        CodecOptions {
            validate_checksums: value,
            ..self
        }
    }

    /// Whether a chunk that is written is stored also where all its elements are the fill value. False by default: the
    /// key of such a chunk is erased.
    pub fn store_empty_chunks(&self) -> bool
        ensures { result ≡ self.now.store_empty_chunks }
    {
        self.store_empty_chunks
    }

    /// Sets whether chunks are stored that are all fill.
    pub fn set_store_empty_chunks(&mut self, value: bool) -> &mut Self
        ensures same { result.ghost_name ≡ self.entry.ghost_name }
        ensures value { result.now ≡ record self.old { store_empty_chunks = value } }
    {
        self.store_empty_chunks = value;
        self
    }

    /// These options with another `store_empty_chunks`.
    pub fn with_store_empty_chunks(self, value: bool) -> Self
        ensures { result ≡ record self { store_empty_chunks = value } }
    {
        CodecOptions {
            store_empty_chunks: value,
            ..self
        }
    }

    /// How many threads a call aims at. 1 by default, and no other answer depends on it.
    pub fn concurrent_target(&self) -> usize
        ensures { result ≡ self.now.concurrent_target }
    {
        self.concurrent_target
    }

    /// Sets how many threads a call aims at.
    pub fn set_concurrent_target(&mut self, value: usize) -> &mut Self
        ensures same { result.ghost_name ≡ self.entry.ghost_name }
        ensures value { result.now ≡ record self.old { concurrent_target = value } }
    {
        self.concurrent_target = value;
        self
    }

    /// These options with another `concurrent_target`.
    pub fn with_concurrent_target(self, value: usize) -> Self
        ensures { result ≡ record self { concurrent_target = value } }
    {
        CodecOptions {
            concurrent_target: value,
            ..self
        }
    }

    /// How many chunks a call works on at a time at least. 4 by default, and no other answer depends on it.
    pub fn chunk_concurrent_minimum(&self) -> usize
        ensures { result ≡ self.now.chunk_concurrent_minimum }
    {
        self.chunk_concurrent_minimum
    }

    /// Sets how many chunks a call works on at a time at least.
    pub fn set_chunk_concurrent_minimum(&mut self, value: usize) -> &mut Self
        ensures same { result.ghost_name ≡ self.entry.ghost_name }
        ensures value { result.now ≡ record self.old { chunk_concurrent_minimum = value } }
    {
        self.chunk_concurrent_minimum = value;
        self
    }

    /// These options with another `chunk_concurrent_minimum`.
    pub fn with_chunk_concurrent_minimum(self, value: usize) -> Self
        ensures { result ≡ record self { chunk_concurrent_minimum = value } }
    {
        CodecOptions {
            chunk_concurrent_minimum: value,
            ..self
        }
    }

    /// Whether a part of a value is encoded alone where it can be. False by default, and no other answer depends on it.
    pub fn experimental_partial_encoding(&self) -> bool
        ensures { result ≡ self.now.experimental_partial_encoding }
    {
        self.experimental_partial_encoding
    }

    /// Sets whether a part of a value is encoded alone where it can be.
    pub fn set_experimental_partial_encoding(&mut self, value: bool) -> &mut Self
        ensures same { result.ghost_name ≡ self.entry.ghost_name }
        ensures value { result.now ≡ record self.old { experimental_partial_encoding = value } }
    {
        self.experimental_partial_encoding = value;
        self
    }

    /// These options with another `experimental_partial_encoding`.
    pub fn with_experimental_partial_encoding(self, value: bool) -> Self
        ensures { result ≡ record self { experimental_partial_encoding = value } }
    {
        CodecOptions {
            experimental_partial_encoding: value,
            ..self
        }
    }
}

/// Options of the metadata of codecs.
#[derive(Clone, Copy, Debug)]
pub struct CodecMetadataOptions {
    codec_store_metadata_if_encode_only: bool,
}

impl Default for CodecMetadataOptions {
    ghost is_default = { λ options. options ≡ default_metadata_options };

    fn default() -> Self {
        CodecMetadataOptions {
            codec_store_metadata_if_encode_only: true,
        }
    }
}

impl CodecMetadataOptions {
    /// Whether the metadata has a codec also where only encoding needs it. True by default, and no other answer depends
    /// on it.
    pub fn codec_store_metadata_if_encode_only(&self) -> bool
        ensures { result ≡ self.now.codec_store_metadata_if_encode_only }
    {
        self.codec_store_metadata_if_encode_only
    }

    /// Sets whether the metadata has a codec also where only encoding needs it.
    pub fn set_codec_store_metadata_if_encode_only(&mut self, value: bool) -> &mut Self
        ensures same { result.ghost_name ≡ self.entry.ghost_name }
        ensures value { result.now
            ≡ record self.old { codec_store_metadata_if_encode_only = value } }
    {
        self.codec_store_metadata_if_encode_only = value;
        self
    }

    /// These options with another `codec_store_metadata_if_encode_only`.
    pub fn with_codec_store_metadata_if_encode_only(self, value: bool) -> Self
        ensures { result ≡ record self { codec_store_metadata_if_encode_only = value } }
    {
        CodecMetadataOptions {
            codec_store_metadata_if_encode_only: value,
        }
    }
}
