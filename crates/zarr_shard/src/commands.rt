//! A sharded array runs the commands of a program.

ghost use Rattle.zarr_shard.specs.Costs.{shard_costs};
ghost use Rattle.zarr_shard.specs.ShardArray.{documented_shards, described_shards};

use crate::array::ShardArray;
use std::alloc::Global;
use zarr_array::{CodecOptions, Command, Reply};
use zarr_cli::{CommandArray, Status};
use zarr_cli_runs::commands::replies_of;
use zarrs_data_type::DataType;
use zarrs_storage::Store;

impl CommandArray for ShardArray {
    ghost described = { described_shards };

    ghost costs = { λ array. shard_costs (documented_shards array) };

    fn data_type(&self) -> &DataType {
        self.codec.inner().data_type()
    }

    fn replies<S: Store>(
        &self,
        alloc: Global,
        commands: &[Command],
        store: &mut S,
        options: &CodecOptions,
    ) -> Result<Vec<Reply>, Status> {
        replies_of(alloc, self, commands, store, options)
    }
}
