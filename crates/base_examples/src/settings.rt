// Configurations and their faults.
use chip_config::{Config, ConfigFault, read};

#[test]
fn an_empty_object_is_plain(rt: HostRuntime) {
    assert_eq!(rt; read(rt.alloc(), b"{}"), Ok(Config::plain()));
}

#[test]
fn other_bytes_are_no_object(rt: HostRuntime) {
    assert_eq!(rt; read(rt.alloc(), b"{"), Err(ConfigFault::NotJson));
    assert_eq!(rt; read(rt.alloc(), b"\xff"), Err(ConfigFault::NotJson));
    assert_eq!(rt; read(rt.alloc(), b"[]"), Err(ConfigFault::NotObject));
}

#[test]
fn unknown_keys_are_refused(rt: HostRuntime) {
    assert_eq!(rt;
        read(rt.alloc(), b"{\"hart\":1}"),
        Err(ConfigFault::UnknownKey)
    );
    assert_eq!(rt;
        read(rt.alloc(), b"{\"harts\":\"1\",\"hart\":1}"),
        Err(ConfigFault::UnknownKey)
    );
}

#[test]
fn values_are_whole_numbers(rt: HostRuntime) {
    assert_eq!(rt;
        read(rt.alloc(), b"{\"harts\":\"1\"}"),
        Err(ConfigFault::NotNumber(1))
    );
    assert_eq!(rt;
        read(rt.alloc(), b"{\"mem_base\":-0}"),
        Err(ConfigFault::NotNumber(3))
    );
    assert_eq!(rt;
        read(rt.alloc(), b"{\"harts\":9,\"cores\":null}"),
        Err(ConfigFault::NotNumber(2))
    );
}

#[test]
fn numbers_are_in_range(rt: HostRuntime) {
    assert_eq!(rt;
        read(rt.alloc(), b"{\"harts\":9}"),
        Err(ConfigFault::OutOfRange(1, 9))
    );
    assert_eq!(rt;
        read(rt.alloc(), b"{\"line_bytes\":48}"),
        Err(ConfigFault::OutOfRange(16, 48))
    );
    assert_eq!(rt;
        read(rt.alloc(), b"{\"line_bytes\":32,\"mem_base\":32}"),
        Err(ConfigFault::OutOfRange(3, 32))
    );
}

#[test]
fn sets_are_a_power_of_two(rt: HostRuntime) {
    assert_eq!(rt;
        read(rt.alloc(), b"{\"core_sets\":0,\"hart_sets\":3}"),
        Err(ConfigFault::OutOfRange(5, 3))
    );
    assert_eq!(rt;
        read(rt.alloc(), b"{\"core_sets\":128}"),
        Err(ConfigFault::OutOfRange(7, 128))
    );
}

#[test]
fn memory_is_whole_lines(rt: HostRuntime) {
    assert_eq!(rt;
        read(rt.alloc(), b"{\"line_bytes\":128,\"mem_bytes\":4160}"),
        Err(ConfigFault::BadMemory(0, 4160))
    );
    assert_eq!(rt;
        read(rt.alloc(), b"{\"mem_base\":4294967232}"),
        Err(ConfigFault::BadMemory(4_294_967_232, 16_777_216))
    );
}

#[test]
fn the_last_value_of_a_key_counts(rt: HostRuntime) {
    let config = read(rt.alloc(), b"{\"cores\":4,\"harts\":9,\"harts\":2}");
    assert_eq!(rt;
        config.map(|config| (config.harts, config.cores)),
        Ok((2, 4))
    );
}
