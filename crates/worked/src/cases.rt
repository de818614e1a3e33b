// The worked graphs, and the refusals that a script can ask for, as scripts.

/// A name, and a script.
pub(crate) const CASES: [(&str, &str); 18] = [
    (
        "multiply-add",
        "\
make_block
append_block_param block0 i32
append_inst block0 iconst 3 -> i32
append_inst block0 imul v0 v1 -> i32
append_inst block0 iconst 7 -> i32
append_inst block0 iadd v2 v3 -> i32
",
    ),
    (
        "select on a parameter",
        "\
make_block
append_block_param block0 i8
append_block_param block0 i32
append_inst block0 iadd v1 v1 -> i32
append_inst block0 select v0 v2 v1 -> i32
",
    ),
    (
        "alias of a parameter",
        "\
make_block
append_block_param block0 i32
append_inst block0 iconst 1 -> i32
clear_results inst0
change_to_alias v1 v0
append_inst block0 imul v0 v1 -> i32
append_inst block0 iadd v2 v2 -> i32
",
    ),
    (
        "aliases resolved",
        "\
make_block
append_block_param block0 i32
append_inst block0 iconst 1 -> i32
clear_results inst0
change_to_alias v1 v0
append_inst block0 imul v0 v1 -> i32
resolve_all_aliases
append_inst block0 iadd v1 v1 -> i32
append_inst block0 iadd v2 v2 -> i32
",
    ),
    (
        "refused alias through a cleared result",
        "\
make_block
append_block_param block0 i32
append_inst block0 iadd v0 v0 -> i32
clear_results inst0
append_inst block0 imul v1 v0 -> i32
change_to_alias v1 v2
",
    ),
    (
        "lowest value of a longer loop",
        "\
make_block
append_block_param block0 i32
append_inst block0 iadd v0 v0 -> i32
append_inst block0 bnot v0 -> i32
clear_results inst1
append_inst block0 imul v2 v0 -> i32
append_inst block0 imul v3 v0 -> i32
change_to_alias v2 v4
clear_results inst0
change_to_alias v1 v2
change_to_alias v2 v4
",
    ),
    (
        "alias of an alias",
        "\
make_block
append_block_param block0 i32
append_inst block0 iconst 1 -> i32
append_inst block0 iconst 2 -> i32
clear_results inst0
clear_results inst1
change_to_alias v1 v2
change_to_alias v2 v0
change_to_alias v0 v1
change_to_alias v1 v1
",
    ),
    (
        "source resolves to destination",
        "\
make_block
append_inst block0 iconst 1 -> i32
append_inst block0 iconst 2 -> i32
clear_results inst0
clear_results inst1
change_to_alias v0 v1
change_to_alias v1 v0
change_to_alias v1 v1
",
    ),
    (
        "constants of i8",
        "\
make_block
append_inst block0 iconst 255 -> i8
append_inst block0 iconst 256 -> i8
append_inst block0 iconst -1 -> i8
append_inst block0 iconst -1 -> i64
append_inst block0 iconst 65535 -> i16
append_inst block0 iconst 65536 -> i16
append_inst block0 iconst 4294967295 -> i32
append_inst block0 iconst 4294967296 -> i32
",
    ),
    (
        "parameters are numbered in their block",
        "\
make_block
make_block
append_block_param block1 i8
append_block_param block0 i16
append_block_param block1 i64
append_block_param block2 i8
",
    ),
    (
        "types",
        "\
make_block
append_block_param block0 0
append_block_param block0 1
append_block_param block0 2
append_block_param block0 128
append_block_param block9 0
append_block_param block9 i8
",
    ),
    (
        "opcodes and conditions",
        "\
make_block
append_block_param block0 i8
append_inst block0 24 v0 v0 -> i8
append_inst block0 25 v0 v0 -> i8
append_inst block0 26 v0 v0 -> i8
append_inst block0 icmp cc9 v0 v0 -> i8
append_inst block0 icmp cc10 v0 v0 -> i8
append_inst block0 iadd cc10 v0 v0 -> i8
append_inst block0 iadd ule v0 v0 -> i8
",
    ),
    (
        "counts",
        "\
make_block
append_block_param block0 i8
append_inst block0 opaque v0 v0 v0 -> i8 i8
append_inst block0 opaque v0 v0 v0 v0 -> i8
append_inst block0 opaque -> i8 i8 i8
append_inst block0 iadd v0 -> i8
append_inst block0 iadd v0 v0 v0 -> i8
append_inst block0 iadd v0 v0 -> i8 i8
append_inst block0 iadd v0 v0 ->
append_inst block0 iconst v0 -> i8
append_inst block0 select v0 v0 -> i8
",
    ),
    (
        "live operands and blocks",
        "\
make_block
append_block_param block0 i8
append_inst block0 iadd v0 v1 -> i8
append_inst block1 iadd v0 v0 -> i8
append_inst block0 opaque v7 ->
clear_results inst0
",
    ),
    (
        "widths",
        "\
make_block
append_block_param block0 i8
append_block_param block0 i32
append_block_param block0 other
append_inst block0 iadd v0 v1 -> i8
append_inst block0 iadd v0 v0 -> i32
append_inst block0 ishl v1 v0 -> i32
append_inst block0 ishl v1 v2 -> i32
append_inst block0 uextend v0 -> i32
append_inst block0 uextend v1 -> i32
append_inst block0 sextend v1 -> i8
append_inst block0 icmp v1 v1 -> i8
append_inst block0 icmp v1 v1 -> i32
append_inst block0 icmp v0 v1 -> i8
append_inst block0 select v2 v0 v0 -> i8
append_inst block0 iadd v2 v2 -> other
append_inst block0 iconst 1 -> other
",
    ),
    (
        "order of checks",
        "\
make_block
append_block_param block0 i8
append_inst block9 99 v9 v9 -> 3 3
append_inst block9 iadd v9 -> i8
append_inst block9 iadd v9 v9 -> i32
append_inst block0 iconst 999 -> other
append_inst block0 iconst 999 -> i8
change_to_alias v0 v0
change_to_alias v0 v9
change_to_alias v9 v0
",
    ),
    (
        "attached",
        "\
make_block
append_block_param block0 i8
append_inst block0 bnot v0 -> i8
change_to_alias v0 v1
change_to_alias v1 v0
clear_results inst0
change_to_alias v1 v0
change_to_alias v1 v0
clear_results inst0
",
    ),
    (
        "types of an alias",
        "\
make_block
append_block_param block0 i8
append_inst block0 iconst 1 -> i32
clear_results inst0
change_to_alias v1 v0
",
    ),
];
