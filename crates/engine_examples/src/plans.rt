//! The seals of stores against those of another program.

ghost use Rattle.std.specs.Prelude.{◌≤◌, IfOk, IfSome};
ghost use Rattle.std.specs.List.{All};
ghost use Rattle.step_count.specs.Blank.{IsBlankOf};
ghost use Rattle.history_model.specs.Stored.{IsStorable};
ghost use Rattle.tuple_bytes.specs.Limits.{max_granules};
ghost use Rattle.tuple_bytes.specs.Spelling.{FitsHeader};

use chain_state::Chains;
use history_model::Spelled;
use notary_link::Seals;
use policy_eras::{Eras, MAX_GRANULES};
use seal_plan::Plan;
use std::alloc::{AllocError, Global};
use std::marker::Brand;
use std::test::Fail;
use step_count::{Blank, Ledger, Steps};
use tuple_bytes::{Header, Item, Items, decode_item};

/// A creation of a table, and an insert, as their items are spelled, but for the moment and the key.
const CREATE: [u8; 25] = [
    1, 0, 0, 0, 1, 0, 0, 0, 0, 0, 0, 0, 0, 0, 1, 1, 1, b't', 2, 1, b'k', 1, 1, b'v', 1,
];

const INSERT: [u8; 37] = [
    1, 0, 0, 0, 2, 0, 0, 0, 0, 0, 0, 0, 0, 0, 1, 2, 1, b't', 2, 1, 0, 0, 0, 0, 0, 0, 0, 0, 1, 0, 0,
    0, 0, 0, 0, 0, 0,
];

/// The item that a short spelling spells.
fn read(alloc: Global, spelling: &[u8]) -> Result<Option<Item>, AllocError>
    ensures { IfOk result (λ item. IfSome item IsStorable) }
{
    if spelling.len() > 40 {
        return Ok(None);
    }
    let item = decode_item(alloc, spelling)?;
    Ok(item)
}

/// Items by their number, moment and key. The first one is the creation.
fn read_all(alloc: Global, rows: &[(u8, u16, u8)]) -> Result<Items, AllocError>
    ensures { IfOk result (λ items. All IsStorable items) }
{
    let mut items = Items::new(alloc);
    for (number, moment, key) in rows {
        let [high, low] = moment.to_be_bytes();
        let mut create = CREATE;
        create[11] = high;
        create[12] = low;
        let mut insert = INSERT;
        insert[4] = *number;
        insert[11] = high;
        insert[12] = low;
        insert[27] = *key;
        let spelling: &[u8] = if *number == 1 { &create } else { &insert };
        if let Some(item) = read(alloc, spelling)? {
            items.push(item)?;
        }
    }
    Ok(items)
}

/// The same items, and behind them policies by their tile, granule, exponent and algorithms.
fn read_with(
    alloc: Global,
    rows: &[(u8, u16, u8)],
    policies: &[(u8, u8, u8, u8)],
) -> Result<Items, AllocError>
    ensures { IfOk result (λ items. All IsStorable items) }
{
    let mut items = read_all(alloc, rows)?;
    for (tile, granule, k, algs) in policies {
        let spelling = [3, 0, 0, 0, *tile, 0, 0, 0, *granule, *k, *algs];
        if let Some(item) = read(alloc, &spelling)? {
            items.push(item)?;
        }
    }
    Ok(items)
}

/// The seals of the last of so many tiles; none where these end behind the last granule.
fn last_batch<L: Ledger>(
    blank: Blank,
    alloc: Global,
    header: &Header,
    tiles: u32,
    items: &Items,
) -> Result<Seals, AllocError>
    requires blank { IsBlankOf L.name L.parts blank }
    requires header { FitsHeader header.now }
    requires storable { All IsStorable items.now }
{
    let mut steps = Steps::<L>::new(blank);
    let spelled = Spelled::of(alloc, items)?;
    let eras = Eras::of(alloc, header, &spelled)?;
    if eras.first(tiles) > u64::from(MAX_GRANULES) {
        return Ok(Seals::new(alloc));
    }
    Plan::new(alloc, header, &spelled, tiles, &mut steps)?.batch(alloc, tiles)
}

/// The seals of the last tile that has ended where a granule begins, of kept chains, where there are any.
fn kept_batch<L: Ledger>(
    blank: Blank,
    alloc: Global,
    header: &Header,
    granule: u32,
    items: &Items,
) -> Result<Option<Seals>, AllocError>
    requires blank { IsBlankOf L.name L.parts blank }
    requires header { FitsHeader header.now }
    requires within { granule ≤ max_granules }
    requires storable { All IsStorable items.now }
{
    let mut steps = Steps::<L>::new(blank);
    let spelled = Spelled::of(alloc, items)?;
    match Chains::from_items(alloc, header, &spelled, &mut steps)? {
        Some(mut chains) => {
            chains.close_to(alloc, granule)?;
            let last = chains.tiles();
            let seals = chains.batch(alloc, last)?;
            Ok(Some(seals))
        }
        None => Ok(None),
    }
}

/// A header of this id, under which granules have a minute.
fn header(id: u64, k: u8, algs: u8) -> Header
    requires small { (k ≤ 10) × (algs ≤ 3) }
    ensures fits { FitsHeader result }
{
    Header {
        id,
        epoch: 0,
        width: 60,
        k,
        algs,
    }
}

const WORKED: [(u8, u16, u8); 9] = [
    (1, 0, 0),
    (2, 0, 0),
    (3, 60, 1),
    (4, 120, 2),
    (5, 180, 3),
    (6, 240, 4),
    (7, 300, 5),
    (8, 360, 6),
    (9, 420, 7),
];

const FALLING: [(u8, u16, u8); 4] = [(1, 130, 0), (2, 10, 1), (3, 125, 2), (4, 70, 3)];

const OF_WORKED: [&str; 20] = [
    "f87cbf8193e5ef79956ed0ccc181c1f75d54b9efd5ef2653599a6453cc09e26e",
    "d2cb91a5a1aadb890c00a4a9af51969f6a3863e411441ad89c59ebce2c67570c",
    "fe963e43ceb2ffa3b99393b7e5594be22081e546d7bb6e86b11d37c12e14043f",
    "2c20e34cdafbf338cf80ed3d79c60048626403fd1ec27461ba13cb7fd4aef68a",
    "ca6d7345715577192b779dd3573c74e480d565455bae814dd1acf452c3aa144f",
    "3867c121da74080f67a1d2cdc7b14c6035543a159b411db2a234cbf9172843a3",
    "32a13805d8ba98f8e59f3e071f26d5a75ca372c95170a89161358ea33717ff5b",
    "dd87fb0b289b094de5e9a41d9460aa9a8892e11e3452a4d68aa809c127fc1544",
    "55316abcb9b0c9aae21b9d492c068778984fd917bc99da4fb42e03f724328142",
    "03031076daea2dc03d850abfc9a565d08af68099328959e89eb49e89a6d7e719",
    "e1a720bb05206688ad946834b21541a47a8ecb3355d315609a097950b857cea4",
    "cc712941d637181ca500f3a5a1bb95dfd603512eb0546c221cf6cbb66888b7fc",
    "8dfa4c4c75260b93de2d9ced16c565a43053ff83fb656d6b324eb21cb240fbce",
    "990f582142f21a83ce738e9451e18b6160f9a6e8702f99f380f94708683233c1",
    "4d111686202e0a85d6acffe7eb13ee8182d4265361ac57454d81fc4bd74a120d",
    "4ad60f5cc889759b33db0e7e51a92f4c343d563aa4d31ffaf69077e0cee75c92",
    "635705c66e879557d1eeb867baca2a55f723eddcd56ef9a497b5fe5ac1b7c336",
    "411382790c5bf51efd85e3e70dae028680a5aa1ea937f4dbc83f0792c025a0f8",
    "f4b8cecf5c70c7bf7e0223404ac413b4fe5ad2eea567481dcd67b7a9bdcd904f",
    "30b0b70fd50d62602db917260db8ce57d21f3faaa765d8b8b4ebf147d56b5d5a",
];

const OF_FALLING: [&str; 7] = [
    "d7d0e6d6a8fcc03d3b1b50aa7dedbafafaf730b3fe2e76cc8df2040a03239067",
    "c9af50c07c3d44f2d796fc8f732d5ee231c49b5fd3073507e7d46e85783a3101",
    "a426aae8e78a0a0255fde60407037322aa81f6231db5eefae1fab3ed8ddb5135",
    "d8a0116c62197e85842ecff6195daff1945332ec9fa600401b487fac890887f4",
    "0304b224881f43a6f7e5654fc8ef24e9fe97506cce6c4ca5fd69ba5c94310a37",
    "fec827c9116f2c18c17a2004d6c03c83671a4f499b3cc87b348afce6ab9006c7",
    "e4f1a967809fc9d72cea55b85a8a5aff3f70c832f5eca2387439563cfad55f46",
];

/// Era 1 and era 2 begin at tile 1, so that era 1 has no tile; a policy of another granule has no effect.
const POLICIES: [(u8, u8, u8, u8); 3] = [(1, 4, 0, 1), (1, 5, 0, 3), (1, 4, 1, 2)];

/// The eras 1 and 2, the chain, and the nodes 0 0, 0 1 and 1 0 of era 2.
const OF_TURNED: [&str; 6] = [
    "3c583a57ca698a2373bc9d704ab6e25073271e6c1471b134b48579e05eb4876e",
    "976b619fce86f5990462b3e4ab89c81b6537efee19cd6cef741873fc6e2eefa7",
    "687f24440d4e6d9985c0ffab7ef33910fb83a5033262a193289eef6b432e8f99",
    "8dfa4c4c75260b93de2d9ced16c565a43053ff83fb656d6b324eb21cb240fbce",
    "990f582142f21a83ce738e9451e18b6160f9a6e8702f99f380f94708683233c1",
    "6c1755b70777ecb6c1df964845526c1fc9cce46f01d58e5b47f55f07ea21f088",
];

/// The chain, and the nodes 0 2, 0 3, 1 1 and 2 0 of era 2.
const OF_THE_NEXT: [&str; 5] = [
    "1225f934dc788752d5a7eaae1f832b232a33d1ce861309cf214fd8b8bb99d9b7",
    "4ad60f5cc889759b33db0e7e51a92f4c343d563aa4d31ffaf69077e0cee75c92",
    "635705c66e879557d1eeb867baca2a55f723eddcd56ef9a497b5fe5ac1b7c336",
    "9920604db859e363bf2620ad11dcd21f4e0c64d63868c725076164c1a3671e0c",
    "a3d1f24c4352ea94c6fc3c8d52663c8647920c426e5260cc9d02922509890519",
];

#[test]
fn a_batch_has_the_seals_of_another_program(rt: HostRuntime) -> Result<(), Fail> {
    let alloc = rt.alloc();
    let items = read_all(alloc, &WORKED)?;
    let worked = last_batch::<Brand>(Blank::new(1), alloc, &header(7, 3, 3), 1, &items)?;
    let items = read_all(alloc, &FALLING)?;
    let falling = last_batch::<Brand>(Blank::new(1), alloc, &header(9, 1, 3), 2, &items)?;
    let items = read_with(alloc, &WORKED, &POLICIES)?;
    let turned = last_batch::<Brand>(Blank::new(1), alloc, &header(7, 2, 1), 2, &items)?;
    let next = last_batch::<Brand>(Blank::new(1), alloc, &header(7, 2, 1), 3, &items)?;
    for (seals, wanted) in [
        (&worked, OF_WORKED.as_slice()),
        (&falling, &OF_FALLING),
        (&turned, &OF_TURNED),
        (&next, &OF_THE_NEXT),
    ] {
        assert_eq!(rt; seals.as_slice().len(), wanted.len());
        for (seal, text) in seals.as_slice().iter().zip(wanted) {
            assert_eq!(rt; hex::encode(alloc, seal.digest)?.as_str(), *text);
        }
    }
    Ok(())
}

#[test]
fn kept_chains_have_the_seals_of_another_program(rt: HostRuntime) -> Result<(), Fail> {
    let alloc = rt.alloc();
    let items = read_all(alloc, &WORKED)?;
    let kept = kept_batch::<Brand>(Blank::new(1), alloc, &header(7, 3, 3), 8, &items)?;
    let seals = kept.unwrap_or(Seals::new(alloc));
    assert_eq!(rt; seals.as_slice().len(), OF_WORKED.len());
    for (seal, text) in seals.as_slice().iter().zip(&OF_WORKED) {
        assert_eq!(rt; hex::encode(alloc, seal.digest)?.as_str(), *text);
    }
    let items = read_all(alloc, &FALLING)?;
    let none = kept_batch::<Brand>(Blank::new(1), alloc, &header(9, 1, 3), 4, &items)?;
    assert!(rt; none.is_none());
    Ok(())
}
