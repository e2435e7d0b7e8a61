//! The commands, read from arguments.

ghost use Rattle.std.specs.Prelude.{◌≡◌, ◌<◌, IfOk, IfSome, map, string_bytes};
ghost use Rattle.line_fields.specs.Fields.{hex, number_in};
ghost use Rattle.lms_sign.specs.Sets.{leaves_of};
ghost use Rattle.command_input.specs.Ranges.{most_drawn, seed_size, ident_size};
ghost use Rattle.command_input.specs.Commands as commands;
ghost use Rattle.command_input.specs.Commands.{HasLeaf, IsLeaf, audit_of, batch_of, check_of, claim_of, command_of};
ghost use Rattle.command_input.specs.Commands.{confirm_of, generate_of, hex_of, hss_keys_of, hss_material_of};
ghost use Rattle.command_input.specs.Commands.{hss_sign_of, hss_verify_of, keys_of, leaf_of, load_of, material_of};
ghost use Rattle.command_input.specs.Commands.{number_of, numbers_in, reads, replay_of, said, sign_of, signing_of};
ghost use Rattle.command_input.specs.Commands.{size_of, unbatch_of, verify_of};

use basil_types::bytes::Bytes;
use basil_types::memory::NoMemory;
use line_fields::fields::frames;
use line_fields::fields::numbers::{read_number, read_number_in};
use lms_sign::LmsSet;
use std::alloc::Global;

/// The most transactions of a load.
const MOST_DRAWN: u64 = 2000;

/// What an LMS key is made of: a parameter set, and the SEED and the identifier I of RFC 8554.
#[derive(Clone, Copy)]
pub struct KeyMaterial {
    pub set: LmsSet,
    pub seed: [u8; 32],
    pub ident: [u8; 16],
}

/// An LMS key, and the number of the leaf that it is to sign with, from 0.
#[derive(Clone, Copy)]
pub struct SigningLeaf {
    pub material: KeyMaterial,
    pub leaf: u32,
}

/// What an HSS key of two levels is made of: the LMS key of the top level, and the parameter set of the bottom one.
#[derive(Clone, Copy)]
pub struct HssMaterial {
    pub top: KeyMaterial,
    pub bottom: LmsSet,
}

impl HssMaterial {
    /// The number of its signatures, one for each bottom leaf under each top leaf.
    fn numbers(&self) -> u64
        ensures { result ≡ numbers_in self.now }
    {
        u64::from(self.top.set.leaves()) * u64::from(self.bottom.leaves())
    }
}

/// A public key, and bytes that may be a signature under it.
#[derive(Drop)]
pub struct Claim {
    pub public: Bytes,
    pub signature: Bytes,
}

/// What a load is made of: a number, and how many transactions, 1 to 2,000.
#[derive(Clone, Copy)]
pub struct LoadSize {
    pub seed: u64,
    pub count: u32,
}

/// What the program is asked to do.
#[derive(Drop)]
pub enum Command {
    /// The report of a schedule. Where deliveries are carried, each node is handed what links give for a message, else
    /// the message's own bytes.
    Replay { carried: bool },
    /// The schedule of a load.
    Generate { size: LoadSize },
    /// What becomes of the transactions of a load.
    Load { size: LoadSize },
    /// The public key of a key.
    Keys { material: KeyMaterial },
    /// The signature of the input with a leaf.
    Sign { signing: SigningLeaf },
    /// Whether a signature of the input is valid under a public key.
    Verify { claim: Claim },
    /// The public key of an HSS key of two levels.
    HssKeys { material: HssMaterial },
    /// The signature of the input with a number, from 0.
    HssSign { material: HssMaterial, number: u64 },
    /// Whether a signature of the input is valid under an HSS public key.
    HssVerify { claim: Claim },
    /// The signatures of the input's messages, all by one signature with a leaf.
    Batch { signing: SigningLeaf },
    /// Whether such a signature of the input's message is valid under a public key, and where it stands in the batch
    /// behind it.
    Unbatch { claim: Claim },
    /// Whether the certificate of a writeback proves its decision.
    Check,
    /// The same, by the file of the cluster.
    Confirm,
    /// Whether each read of listed transactions is what the serial order gives it.
    Audit,
}

impl Command {
    /// Whether it has an input.
    pub fn has_input(&self) -> bool
        ensures { result ≡ reads self.now }
    {
        match self {
            Command::Generate { .. }
            | Command::Load { .. }
            | Command::Keys { .. }
            | Command::HssKeys { .. } => false,
            _ => true,
        }
    }
}

/// The parameter set that an argument names.
fn read_set(argument: &str) -> Option<LmsSet>
    ensures { result ≡ commands.set_of argument.now }
{
    match argument {
        "w4h5" => Some(LmsSet::W4H5),
        "w4h10" => Some(LmsSet::W4H10),
        "w8h5" => Some(LmsSet::W8H5),
        "w8h10" => Some(LmsSet::W8H10),
        _ => None,
    }
}

/// The bytes that an argument spells in lower-case hex: one at least.
fn read_hex(alloc: Global, argument: &str) -> Result<Option<Bytes>, NoMemory>
    ensures { IfOk result (λ bytes. bytes ≡ said (hex argument.now)) }
{
    match frames::read_hex(alloc, argument.as_bytes())? {
        Ok(bytes) => Ok(Some(bytes)),
        Err(_) => Ok(None),
    }
}

/// Thirty-two bytes in hex.
pub fn read_seed(alloc: Global, argument: &str) -> Result<Option<[u8; 32]>, NoMemory>
    ensures { IfOk result (λ seed. seed ≡ hex_of seed_size argument.now) }
{
    let Some(bytes) = read_hex(alloc, argument)? else {
        return Ok(None);
    };
    if bytes.as_slice().len() != 32 {
        return Ok(None);
    }
    let mut seed = [0u8; 32];
    seed.copy_from_slice(bytes.as_slice());
    Ok(Some(seed))
}

/// Sixteen bytes in hex.
fn read_ident(alloc: Global, argument: &str) -> Result<Option<[u8; 16]>, NoMemory>
    ensures { IfOk result (λ ident. ident ≡ hex_of ident_size argument.now) }
{
    let Some(bytes) = read_hex(alloc, argument)? else {
        return Ok(None);
    };
    if bytes.as_slice().len() != 16 {
        return Ok(None);
    }
    let mut ident = [0u8; 16];
    ident.copy_from_slice(bytes.as_slice());
    Ok(Some(ident))
}

/// `SET SEED IDENT`
fn read_material(
    alloc: Global,
    set: &str,
    seed: &str,
    ident: &str,
) -> Result<Option<KeyMaterial>, NoMemory>
    ensures { IfOk result (λ material. material ≡ material_of set.now seed.now ident.now) }
{
    let Some(set) = read_set(set) else {
        return Ok(None);
    };
    let Some(seed) = read_seed(alloc, seed)? else {
        return Ok(None);
    };
    let Some(ident) = read_ident(alloc, ident)? else {
        return Ok(None);
    };
    Ok(Some(KeyMaterial { set, seed, ident }))
}

/// `SET SET SEED IDENT`
fn read_hss_material(
    alloc: Global,
    top: &str,
    bottom: &str,
    seed: &str,
    ident: &str,
) -> Result<Option<HssMaterial>, NoMemory>
    ensures { IfOk result (λ material. material ≡ hss_material_of top.now bottom.now seed.now ident.now) }
{
    let Some(top) = read_material(alloc, top, seed, ident)? else {
        return Ok(None);
    };
    match read_set(bottom) {
        Some(bottom) => Ok(Some(HssMaterial { top, bottom })),
        None => Ok(None),
    }
}

/// The number of a signature of a key of two levels.
fn read_signature_number(material: &HssMaterial, argument: &str) -> Option<u64>
    ensures value { result ≡ number_of material.now argument.now }
    ensures below { IfSome result (λ number. number < numbers_in material.now) }
{
    match read_number(argument.as_bytes()) {
        Ok(number) if number < material.numbers() => Some(number),
        _ => None,
    }
}

/// The number of a leaf of a set's tree.
fn read_leaf(set: LmsSet, argument: &str) -> Option<u32>
    ensures value { result ≡ leaf_of set argument.now }
    ensures below { IfSome result (λ leaf. leaf < leaves_of set) }
{
    match read_number(argument.as_bytes()) {
        Ok(leaf) if leaf < u64::from(set.leaves()) => Some(leaf as u32),
        _ => None,
    }
}

/// `replay`, and `loopback`, where links carry each delivery
fn read_replay(carried: bool, arguments: &[String]) -> Option<Command>
    ensures { result ≡ replay_of carried (map string_bytes arguments.now) }
{
    match arguments {
        [] => Some(Command::Replay { carried }),
        _ => None,
    }
}

/// COUNT: 1 to 2,000.
fn read_count(argument: &str) -> Option<u32>
    ensures { result ≡ said (number_in 1 most_drawn argument.now) }
{
    match read_number_in(argument.as_bytes(), 1, MOST_DRAWN) {
        Ok(count) => Some(count as u32),
        Err(_) => None,
    }
}

/// `N COUNT`
fn read_size(seed: &str, count: &str) -> Option<LoadSize>
    ensures { result ≡ size_of seed.now count.now }
{
    let seed = read_number(seed.as_bytes()).ok()?;
    let count = read_count(count)?;
    Some(LoadSize { seed, count })
}

/// `generate N COUNT`
fn read_generate(arguments: &[String]) -> Option<Command>
    ensures { result ≡ generate_of (map string_bytes arguments.now) }
{
    let [seed, count] = arguments else {
        return None;
    };
    let size = read_size(seed.as_str(), count.as_str())?;
    Some(Command::Generate { size })
}

/// `load N COUNT`
fn read_load(arguments: &[String]) -> Option<Command>
    ensures { result ≡ load_of (map string_bytes arguments.now) }
{
    let [seed, count] = arguments else {
        return None;
    };
    let size = read_size(seed.as_str(), count.as_str())?;
    Some(Command::Load { size })
}

/// `keys SET SEED IDENT`
fn read_keys(alloc: Global, arguments: &[String]) -> Result<Option<Command>, NoMemory>
    ensures { IfOk result (λ command. command ≡ keys_of (map string_bytes arguments.now)) }
{
    let [set, seed, ident] = arguments else {
        return Ok(None);
    };
    match read_material(alloc, set.as_str(), seed.as_str(), ident.as_str())? {
        Some(material) => Ok(Some(Command::Keys { material })),
        None => Ok(None),
    }
}

/// `SET SEED IDENT Q`
fn read_signing(alloc: Global, arguments: &[String]) -> Result<Option<SigningLeaf>, NoMemory>
    ensures value { IfOk result (λ signing. signing ≡ signing_of (map string_bytes arguments.now)) }
    ensures leaf { IfOk result (λ signing. IfSome signing IsLeaf) }
{
    let [set, seed, ident, leaf] = arguments else {
        return Ok(None);
    };
    let Some(material) = read_material(alloc, set.as_str(), seed.as_str(), ident.as_str())? else {
        return Ok(None);
    };
    match read_leaf(material.set, leaf.as_str()) {
        Some(leaf) => Ok(Some(SigningLeaf { material, leaf })),
        None => Ok(None),
    }
}

/// `sign SET SEED IDENT Q`
fn read_sign(alloc: Global, arguments: &[String]) -> Result<Option<Command>, NoMemory>
    ensures value { IfOk result (λ command. command ≡ sign_of (map string_bytes arguments.now)) }
    ensures leaf { IfOk result (λ command. IfSome command HasLeaf) }
{
    match read_signing(alloc, arguments)? {
        Some(signing) => Ok(Some(Command::Sign { signing })),
        None => Ok(None),
    }
}

/// `PUBLIC SIGNATURE`, both in hex
fn read_claim(alloc: Global, arguments: &[String]) -> Result<Option<Claim>, NoMemory>
    ensures { IfOk result (λ claim. claim ≡ claim_of (map string_bytes arguments.now)) }
{
    let [public, signature] = arguments else {
        return Ok(None);
    };
    let Some(public) = read_hex(alloc, public.as_str())? else {
        return Ok(None);
    };
    match read_hex(alloc, signature.as_str())? {
        Some(signature) => Ok(Some(Claim { public, signature })),
        None => Ok(None),
    }
}

/// `verify PUBLIC SIGNATURE`
fn read_verify(alloc: Global, arguments: &[String]) -> Result<Option<Command>, NoMemory>
    ensures { IfOk result (λ command. command ≡ verify_of (map string_bytes arguments.now)) }
{
    match read_claim(alloc, arguments)? {
        Some(claim) => Ok(Some(Command::Verify { claim })),
        None => Ok(None),
    }
}

/// `hsskeys SET SET SEED IDENT`
fn read_hss_keys(alloc: Global, arguments: &[String]) -> Result<Option<Command>, NoMemory>
    ensures { IfOk result (λ command. command ≡ hss_keys_of (map string_bytes arguments.now)) }
{
    let [top, bottom, seed, ident] = arguments else {
        return Ok(None);
    };
    let material = read_hss_material(
        alloc,
        top.as_str(),
        bottom.as_str(),
        seed.as_str(),
        ident.as_str(),
    )?;
    match material {
        Some(material) => Ok(Some(Command::HssKeys { material })),
        None => Ok(None),
    }
}

/// `hsssign SET SET SEED IDENT N`
fn read_hss_sign(alloc: Global, arguments: &[String]) -> Result<Option<Command>, NoMemory>
    ensures value { IfOk result (λ command. command ≡ hss_sign_of (map string_bytes arguments.now)) }
    ensures leaf { IfOk result (λ command. IfSome command HasLeaf) }
{
    let [top, bottom, seed, ident, number] = arguments else {
        return Ok(None);
    };
    let material = read_hss_material(
        alloc,
        top.as_str(),
        bottom.as_str(),
        seed.as_str(),
        ident.as_str(),
    )?;
    let Some(material) = material else {
        return Ok(None);
    };
    match read_signature_number(&material, number.as_str()) {
        Some(number) => Ok(Some(Command::HssSign { material, number })),
        None => Ok(None),
    }
}

/// `hssverify PUBLIC SIGNATURE`
fn read_hss_verify(alloc: Global, arguments: &[String]) -> Result<Option<Command>, NoMemory>
    ensures { IfOk result (λ command. command ≡ hss_verify_of (map string_bytes arguments.now)) }
{
    match read_claim(alloc, arguments)? {
        Some(claim) => Ok(Some(Command::HssVerify { claim })),
        None => Ok(None),
    }
}

/// `batch SET SEED IDENT Q`
fn read_batch(alloc: Global, arguments: &[String]) -> Result<Option<Command>, NoMemory>
    ensures value { IfOk result (λ command. command ≡ batch_of (map string_bytes arguments.now)) }
    ensures leaf { IfOk result (λ command. IfSome command HasLeaf) }
{
    match read_signing(alloc, arguments)? {
        Some(signing) => Ok(Some(Command::Batch { signing })),
        None => Ok(None),
    }
}

/// `unbatch PUBLIC SIGNATURE`
fn read_unbatch(alloc: Global, arguments: &[String]) -> Result<Option<Command>, NoMemory>
    ensures { IfOk result (λ command. command ≡ unbatch_of (map string_bytes arguments.now)) }
{
    match read_claim(alloc, arguments)? {
        Some(claim) => Ok(Some(Command::Unbatch { claim })),
        None => Ok(None),
    }
}

/// `check`
fn read_check(arguments: &[String]) -> Option<Command>
    ensures { result ≡ check_of (map string_bytes arguments.now) }
{
    match arguments {
        [] => Some(Command::Check),
        _ => None,
    }
}

/// `confirm`
fn read_confirm(arguments: &[String]) -> Option<Command>
    ensures { result ≡ confirm_of (map string_bytes arguments.now) }
{
    match arguments {
        [] => Some(Command::Confirm),
        _ => None,
    }
}

/// `audit`
fn read_audit(arguments: &[String]) -> Option<Command>
    ensures { result ≡ audit_of (map string_bytes arguments.now) }
{
    match arguments {
        [] => Some(Command::Audit),
        _ => None,
    }
}

/// The command that the arguments spell; none where they are no command.
pub fn read_command(alloc: Global, arguments: &[String]) -> Result<Option<Command>, NoMemory>
    ensures value { IfOk result (λ command. command ≡ command_of (map string_bytes arguments.now)) }
    ensures leaf { IfOk result (λ command. IfSome command HasLeaf) }
{
    let [name, arguments @ ..] = arguments else {
        return Ok(None);
    };
    match name.as_str() {
        "replay" => Ok(read_replay(false, arguments)),
        "loopback" => Ok(read_replay(true, arguments)),
        "generate" => Ok(read_generate(arguments)),
        "load" => Ok(read_load(arguments)),
        "keys" => read_keys(alloc, arguments),
        "sign" => read_sign(alloc, arguments),
        "verify" => read_verify(alloc, arguments),
        "hsskeys" => read_hss_keys(alloc, arguments),
        "hsssign" => read_hss_sign(alloc, arguments),
        "hssverify" => read_hss_verify(alloc, arguments),
        "batch" => read_batch(alloc, arguments),
        "unbatch" => read_unbatch(alloc, arguments),
        "check" => Ok(read_check(arguments)),
        "confirm" => Ok(read_confirm(arguments)),
        "audit" => Ok(read_audit(arguments)),
        _ => Ok(None),
    }
}
